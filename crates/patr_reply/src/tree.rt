//! The text of a tree, by a stack of parts that are still to be written.
ghost use Rattle.std.specs.Prelude.{◌≡◌, ℕ, ◌<◌, ◌++◌, ◌∷◌, [], length, slice_get, Some, IfOk};
ghost use Rattle.std.specs.List.{AllByRecursion};
ghost use Rattle.std.specs.String.{string_bytes};
ghost use Rattle.patr_model.specs.Derivation.{rule_variant};
ghost use Rattle.patr_model.specs.Text.{mother_category, printed, tree_text};
ghost use Rattle.patr_model.specs.Session.{Numbering, AgreesWith};
ghost use Rattle.patr_chart.specs.Charted.{tree};
ghost use Rattle.patr_library.specs.Stored.{rules_of};
ghost use Rattle.patr_reply.specs.Lines.{look_by};
ghost use Rattle.patr_reply.specs.Sources.{IsRuleOf, IsOfLibrary, AreOfLibrary};
ghost use Rattle.patr_reply.specs.Writing.{root_text, IsHeld, IsStep};

use patr_canon::write_printed;
use patr_chart::{Chart, EdgeKind};
use patr_lexicon::Entry;
use patr_library::{Library, RuleItem};
use patr_text::{Id, Memory, Symbols};

/// A part of a tree's text that is still to be written: an edge's tree without its last bracket, or a character that
/// stands around one.
#[derive(Clone, Copy)]
pub(crate) enum Step {
    Tree(u32),
    Mark(char),
}

/// Appends the text of a symbol.
fn write_symbol(symbols: &Symbols, symbol: Id, out: &mut String) -> Result<(), Memory>
    requires { symbol.0 < length symbols.now }
    ensures { IfOk result (λ _. (names : Numbering) → AgreesWith names symbols.now
        → string_bytes out.new ≡ string_bytes out.old ++ printed (names.text symbol.0)) }
{
    write_printed(symbols.text(symbol), out)
}

/// An entry of the lexicon, by its number.
fn entry_at(library: &Library, number: u32) -> &Entry
    requires { number < length library.now.lexicon }
    ensures { slice_get library.now.lexicon number ≡ Some result.now }
{
    &library.lexicon().entries()[number as usize]
}

/// The item of a rule's variant, by its place.
fn rule_item(library: &Library, place: u32) -> &RuleItem
    requires { place < length library.now.rules }
    ensures { (n rule variant : ℕ) → IsRuleOf n library.now rule variant place
        → (mother_category (rule_variant (rules_of library.now) rule variant) ≡ result.now.mother.0) × (result.now.mother.0 < n) }
{
    &library.rules()[place as usize]
}

/// Appends the text of an entry, or of a rule without daughters, without its last bracket.
fn write_root(
    symbols: &Symbols,
    library: &Library,
    kind: EdgeKind,
    out: &mut String,
) -> Result<(), Memory>
    requires { IsOfLibrary (length symbols.now) library.now kind }
    ensures { IfOk result (λ _. (names : Numbering) → AgreesWith names symbols.now
        → string_bytes out.new ≡ string_bytes out.old ++ root_text (look_by names) (rules_of library.now) kind) }
{
    out.push('(')?;
    match kind {
        EdgeKind::Entry { entry, .. } => {
            let entry = entry_at(library, entry);
            write_symbol(symbols, entry.category, out)?;
            out.push(' ')?;
            write_symbol(symbols, entry.word, out)
        }
        EdgeKind::Rule { item, .. } => {
            let item = rule_item(library, item);
            write_symbol(symbols, item.mother, out)
        }
    }
}

/// Appends the root of an edge's tree, or puts the trees of which it was made before what is left.
fn write_next(
    symbols: &Symbols,
    library: &Library,
    chart: &Chart,
    number: u32,
    left: &mut Vec<Step>,
    out: &mut String,
) -> Result<(), Memory>
    requires roots { AreOfLibrary (length symbols.now) library.now chart.now.edges }
    requires number { number < length chart.now.edges }
    requires held { AllByRecursion (IsHeld (length chart.now.edges)) left.old.items }
    ensures { IfOk result (λ _. IsStep symbols.now (rules_of library.now) chart.now.edges (left.old.items ++ Step.Tree number ∷ [])
        (string_bytes out.old) left.new.items (string_bytes out.new)) }
{
    let edge = chart.edge(number);
    let Some(back) = edge.back else {
        return write_root(symbols, library, edge.kind, out);
    };
    left.extend_from_slice(&[
        Step::Mark(')'),
        Step::Tree(back.passive),
        Step::Mark(' '),
        Step::Tree(back.active),
    ])
}

/// Appends the next part, or puts what it is made of before what is left.
fn write_step(
    symbols: &Symbols,
    library: &Library,
    chart: &Chart,
    step: Step,
    left: &mut Vec<Step>,
    out: &mut String,
) -> Result<(), Memory>
    requires roots { AreOfLibrary (length symbols.now) library.now chart.now.edges }
    requires step { IsHeld (length chart.now.edges) step }
    requires held { AllByRecursion (IsHeld (length chart.now.edges)) left.old.items }
    ensures { IfOk result (λ _. IsStep symbols.now (rules_of library.now) chart.now.edges (left.old.items ++ step ∷ [])
        (string_bytes out.old) left.new.items (string_bytes out.new)) }
{
    match step {
        Step::Tree(number) => write_next(symbols, library, chart, number, left, out),
        Step::Mark(mark) => out.push(mark),
    }
}

/// Appends the text of an edge's tree. What stood in `left` does not matter.
pub(crate) fn write_tree(
    symbols: &Symbols,
    library: &Library,
    chart: &Chart,
    number: u32,
    left: &mut Vec<Step>,
    out: &mut String,
) -> Result<(), Memory>
    requires roots { AreOfLibrary (length symbols.now) library.now chart.now.edges }
    requires number { number < length chart.now.edges }
    ensures { (names : Numbering) → AgreesWith names symbols.now → IfOk result (λ _. string_bytes out.new ≡ string_bytes out.old ++ tree_text (look_by names) (rules_of library.now) (tree chart.now.edges number)) }
{
    left.clear();
    left.push(Step::Tree(number))?;
    while let Some(step) = left.pop() {
        write_step(symbols, library, chart, step, left, out)?;
    }
    out.push(')')
}
