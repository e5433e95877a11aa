//! The items of a variant, of a rule and of all rules; each least value is one block of the library's arena.
ghost use Rattle.std.specs.Prelude.{◌≡◌, ◌<◌, None, Some, IfErr, IfOk, OnOk, length, map, slice_get};
ghost use Rattle.patr_grammar.specs.declared.grammar.RuleText.{RuleText};
ghost use Rattle.patr_grammar.specs.Reading.{rule_seen};
ghost use Rattle.patr_model.specs.Build.{rule_fault, rules_fault};
ghost use Rattle.std.specs.List.{AllByRecursion, sum_by};
ghost use Rattle.patr_model.specs.Variants.{AreWithin};
ghost use Rattle.patr_arena.specs.Arenas.{shown_of};
ghost use Rattle.patr_arena.specs.Blocks.{with_block};
ghost use Rattle.patr_expand.specs.Seen.{IsRefusedBy, equations_at, variant_at};
ghost use Rattle.patr_library.specs.Own.{IsOwnBlock};
ghost use Rattle.patr_library.specs.Built.{AreRulesDealt, IsRuleDealt, StaysWithin, all_numbered, numbered, numbered_from, variants_of};

use crate::copying::count_arcs;
use crate::item::RuleItem;
use crate::solving::{Start, solved};
use crate::workspace::Least;
use patr_arena::{Addr, Memory, PlainArena};
use patr_expand::{ExpandCause, RuleVariant, expand_rule};
use patr_grammar::Grammar;
use patr_scratch::Scratch;
use patr_text::Fault;
use std::alloc::{AllocError, Global};

/// Where a block's value stands, and how many nodes and arcs the block has.
#[derive(Clone, Copy)]
pub(crate) struct Placement {
    pub(crate) root: Addr,
    pub(crate) nodes: u64,
    pub(crate) arcs: u64,
}

/// Puts a block behind the others of the arena.
pub(crate) fn store(arena: &mut PlainArena, least: Least) -> Result<Placement, Memory>
    requires { IsOwnBlock least.block }
    ensures arena { OnOk result (shown_of arena.new ≡ with_block (shown_of arena.old) least.block) }
    ensures root { IfOk result (λ made. (made.root.block ≡ length (shown_of arena.old).sizes) × (made.root.offset ≡ least.root)) }
    ensures counts { IfOk result (λ made. (made.nodes ≡ length least.block) × (made.arcs ≡ sum_by length least.block)) }
{
    let nodes = u64::from(least.block.len());
    let arcs = count_arcs(&least.block)?;
    let offset = least.root;
    let Ok(block) = arena.push(least.block) else {
        return Err(AllocError);
    };
    Ok(Placement {
        root: Addr { block, offset },
        nodes,
        arcs,
    })
}

/// Keeps an item of a rule's variant, where it has a solution.
fn keep_rule(
    alloc: Global,
    variant: &RuleVariant,
    arena: &mut PlainArena,
    items: &mut Vec<RuleItem>,
    scratch: &mut Scratch,
) -> Result<(), Memory>
    requires { AreWithin (length variant.now.symbols.items) (equations_at variant.now.equations.items) }
    ensures { IfOk result (λ _. IsRuleDealt (shown_of arena.old) (shown_of arena.new) variant.now.rule variant.now.variant (variant_at variant.now) items.old.items items.new.items) }
{
    let mother = variant.symbols[0];
    let count = variant.symbols.len() as u32;
    let Some(least) = solved(alloc, Start::Slots(count), &variant.equations, scratch)? else {
        return Ok(());
    };
    let made = store(arena, least)?;
    items.push(RuleItem {
        rule: variant.rule,
        variant: variant.variant,
        mother: mother.category,
        slots: count - 1,
        root: made.root,
        nodes: made.nodes,
        arcs: made.arcs,
    })?;
    Ok(())
}

/// Keeps the items of a rule's variants that have a solution.
fn keep_variants(
    alloc: Global,
    variants: &[RuleVariant],
    arena: &mut PlainArena,
    items: &mut Vec<RuleItem>,
    scratch: &mut Scratch,
) -> Result<(), Memory>
    requires { AllByRecursion StaysWithin variants.now }
    ensures { IfOk result (λ _. AreRulesDealt (shown_of arena.old) (shown_of arena.new) (numbered variants.now) items.old.items items.new.items) }
{
    for variant in variants {
        keep_rule(alloc, variant, arena, items, scratch)?;
    }
    Ok(())
}

/// Keeps the items of one rule.
fn keep_one(
    alloc: Global,
    grammar: &Grammar,
    rule: u32,
    arena: &mut PlainArena,
    items: &mut Vec<RuleItem>,
    scratch: &mut Scratch,
) -> Result<(), Fault<ExpandCause>>
    requires { rule < length grammar.now.rules.items }
    ensures dealt { (r : RuleText) → slice_get grammar.now.rules.items rule ≡ Some r → IfOk result (λ _. AreRulesDealt (shown_of arena.old) (shown_of arena.new) (numbered_from rule 0 (variants_of r)) items.old.items items.new.items) }
    ensures faultless { (r : RuleText) → slice_get grammar.now.rules.items rule ≡ Some r → IfOk result (λ _. rule_fault (rule_seen r) ≡ None) }
    ensures refused { (r : RuleText) → slice_get grammar.now.rules.items rule ≡ Some r → IfErr result (λ fault. IsRefusedBy (rule_fault (rule_seen r)) fault) }
{
    let variants = expand_rule(alloc, grammar, rule)?;
    keep_variants(alloc, &variants, arena, items, scratch)?;
    Ok(())
}

/// Keeps the items of all rules.
pub(crate) fn keep_rules(
    alloc: Global,
    grammar: &Grammar,
    arena: &mut PlainArena,
    items: &mut Vec<RuleItem>,
    scratch: &mut Scratch,
) -> Result<(), Fault<ExpandCause>>
    ensures dealt { IfOk result (λ _. AreRulesDealt (shown_of arena.old) (shown_of arena.new) (all_numbered 0 (map variants_of grammar.now.rules.items)) items.old.items items.new.items) }
    ensures faultless { IfOk result (λ _. rules_fault (map rule_seen grammar.now.rules.items) ≡ None) }
    ensures refused { IfErr result (λ fault. IsRefusedBy (rules_fault (map rule_seen grammar.now.rules.items)) fault) }
{
    for rule in 0..grammar.rules.len() {
        keep_one(alloc, grammar, rule as u32, arena, items, scratch)?;
    }
    Ok(())
}
