//! The variants of a rule.
ghost use Rattle.std.specs.Prelude.{◌≡◌, ◌<◌, ◌^◌, ◌++◌, Some, IfOk, IfErr, length, map, slice_get, filter_map};
ghost use Rattle.std.specs.Option.{option_map};
ghost use Rattle.patr_model.specs.Build as build;
ghost use Rattle.patr_model.specs.Build.{rule_fault};
ghost use Rattle.patr_grammar.specs.declared.grammar.RuleText as code;
ghost use Rattle.patr_grammar.specs.Reading.{path_seen, term_seen, equation_seen, rule_seen};
ghost use Rattle.patr_expand.specs.Seen.{number, cat, symbols_seen, path_at, term_at, equation_at, equations_at, IsRefusedBy};
ghost use Rattle.patr_expand.specs.Expanded.{ArePlaced, IsExpanded, IsMade};

use crate::cause::ExpandCause;
use crate::equation::{Equation, SlotPath, Term};
use crate::measured::Measured;
use crate::right::{push_right, right_count};
use crate::size::{Size, product};
use crate::templates::Templates;
use crate::variant::RuleVariant;
use patr_grammar::{EquationText, Grammar, PathText, RuleText, SymbolText, TermText};
use patr_text::{Fault, Id, Memory, Symbols};
use std::alloc::Global;

/// The slot of the first constituent with this symbol.
fn slot_of(symbols: &[SymbolText], symbol: Id) -> Option<u32>
    requires few { length symbols.now < 2 ^ 32 }
    ensures { result ≡ build.slot_of number (symbols_seen symbols.now) symbol.0 }
{
    for (slot, other) in symbols.iter().enumerate() {
        if other.symbol == symbol {
            return Some(slot as u32);
        }
    }
    None
}

/// The slot at which a path with this head begins: the mother's where it names no constituent.
fn head_slot(symbols: &[SymbolText], head: Option<Id>) -> Option<u32>
    requires few { length symbols.now < 2 ^ 32 }
    ensures { result ≡ build.head_slot number (symbols_seen symbols.now) head }
{
    match head {
        Some(symbol) => slot_of(symbols, symbol),
        None => Some(0),
    }
}

/// The path from the slot of its constituent; none where there is no such constituent.
fn placed_path(
    alloc: Global,
    symbols: &[SymbolText],
    path: &PathText,
) -> Result<Option<SlotPath>, Memory>
    requires few { length symbols.now < 2 ^ 32 }
    ensures { IfOk result (λ found. option_map path_at found ≡ build.placed_path number (symbols_seen symbols.now) (path_seen path.now)) }
{
    let Some(slot) = head_slot(symbols, path.head) else {
        return Ok(None);
    };
    let path = path.attributes.to_vec(alloc)?;
    Ok(Some(SlotPath { slot, path }))
}

/// The right side of an equation at the slots; none where it names a symbol that is left out.
fn placed_term(
    alloc: Global,
    symbols: &[SymbolText],
    term: &TermText,
) -> Result<Option<Term>, Memory>
    requires few { length symbols.now < 2 ^ 32 }
    ensures { IfOk result (λ found. option_map term_at found ≡ build.placed_term number (symbols_seen symbols.now) (term_seen term.now)) }
{
    match term {
        TermText::Atom(atom) => Ok(Some(Term::Atom(*atom))),
        TermText::Path(path) => match placed_path(alloc, symbols, path)? {
            Some(path) => Ok(Some(Term::Path(path))),
            None => Ok(None),
        },
    }
}

/// The equation at the slots; none where it names a symbol that is left out.
fn placed_equation(
    alloc: Global,
    symbols: &[SymbolText],
    equation: &EquationText,
) -> Result<Option<Equation>, Memory>
    requires few { length symbols.now < 2 ^ 32 }
    ensures { IfOk result (λ found. option_map equation_at found ≡ build.placed_equation number (symbols_seen symbols.now) (equation_seen equation.now)) }
{
    let Some(left) = placed_path(alloc, symbols, &equation.left)? else {
        return Ok(None);
    };
    let Some(right) = placed_term(alloc, symbols, &equation.right)? else {
        return Ok(None);
    };
    Ok(Some(Equation { left, right }))
}

/// Puts the equations of the constituents' categories behind others.
fn push_categories(
    alloc: Global,
    symbols: &[SymbolText],
    equations: &mut Vec<Equation>,
) -> Result<(), Memory>
    requires few { length symbols.now < 2 ^ 32 }
    ensures { IfOk result (λ _. equations_at equations.new.items ≡ equations_at equations.old.items ++ build.category_equations number cat 0 (symbols_seen symbols.now)) }
{
    for (slot, symbol) in symbols.iter().enumerate() {
        let left = SlotPath {
            slot: slot as u32,
            path: vec![in alloc; Symbols::CAT]?,
        };
        let right = Term::Atom(symbol.category);
        equations.push(Equation { left, right })?;
    }
    Ok(())
}

/// Puts the written equations that name no symbol that is left out behind others.
fn push_written(
    alloc: Global,
    symbols: &[SymbolText],
    written: &[&EquationText],
    equations: &mut Vec<Equation>,
) -> Result<(), Memory>
    requires few { length symbols.now < 2 ^ 32 }
    ensures { IfOk result (λ _. equations_at equations.new.items ≡ equations_at equations.old.items ++ filter_map (build.placed_equation number (symbols_seen symbols.now)) (map (λ e. equation_seen e.now) written.now)) }
{
    for equation in written {
        if let Some(equation) = placed_equation(alloc, symbols, equation)? {
            equations.push(equation)?;
        }
    }
    Ok(())
}

/// How many variants the parts of a rule have, and which one of each is taken.
#[derive(Clone, Copy)]
struct Parts {
    rights: u64,
    equations: u64,
}

/// The variant of this number of a rule whose parts have so many.
fn rule_variant(
    alloc: Global,
    rule: &RuleText,
    parts: Parts,
    number: u32,
    variant: u32,
) -> Result<RuleVariant, Memory>
    requires { ArePlaced rule.now parts variant }
    ensures { IfOk result (λ made. IsMade number rule.now variant made) }
{
    let templates = Templates::none(alloc)?;
    let variant_of_right = u64::from(variant) / parts.equations;
    let variant_of_equations = u64::from(variant) % parts.equations;
    let mut symbols = vec![in alloc; rule.mother]?;
    push_right(&rule.right, parts.rights, variant_of_right, &mut symbols)?;
    let written = templates.variant(
        alloc,
        &rule.equations,
        parts.equations,
        variant_of_equations,
    )?;
    let mut equations = Vec::new(alloc);
    push_categories(alloc, &symbols, &mut equations)?;
    push_written(alloc, &symbols, &written, &mut equations)?;
    Ok(RuleVariant {
        rule: number,
        variant,
        symbols,
        equations,
    })
}

/// The variants of a rule.
fn expand(
    alloc: Global,
    rule: &RuleText,
    number: u32,
) -> Result<Vec<RuleVariant>, Fault<ExpandCause>>
    ensures expanded { IfOk result (λ variants. IsExpanded number rule.now variants.items) }
    ensures refused { IfErr result (λ fault. IsRefusedBy (rule_fault (rule_seen rule.now)) fault) }
{
    let rights = right_count(&rule.right);
    let written = Measured::new(alloc)?.size(&rule.equations);
    let size = Size {
        variants: product(rights, written.variants),
        equations: written.equations,
    };
    if let Some(cause) = size.refusal(rule.line) {
        return Err(Fault::Refused(cause));
    }
    let parts = Parts {
        rights,
        equations: written.variants,
    };
    let mut variants = Vec::with_capacity(alloc, size.variants as usize)?;
    for variant in 0..size.variants as u32 {
        let made = rule_variant(alloc, rule, parts, number, variant)?;
        variants.push(made)?;
    }
    Ok(variants)
}

/// The variants of the rule with this number: those of its right side change slowest. It is refused where a variant has
/// more than 1,024 written equations, those that name a symbol that is left out among them.
pub fn expand_rule(
    alloc: Global,
    grammar: &Grammar,
    rule: u32,
) -> Result<Vec<RuleVariant>, Fault<ExpandCause>>
    requires { rule < length grammar.now.rules.items }
    ensures expanded { (r : code.RuleText) → slice_get grammar.now.rules.items rule ≡ Some r → IfOk result (λ variants. IsExpanded rule r variants.items) }
    ensures refused { (r : code.RuleText) → slice_get grammar.now.rules.items rule ≡ Some r → IfErr result (λ fault. IsRefusedBy (rule_fault (rule_seen r)) fault) }
{
    expand(alloc, &grammar.rules[rule as usize], rule)
}
