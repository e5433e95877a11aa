//! The items of all rules and then of all entries in one arena, and the keys by which they are found.
ghost use Rattle.std.specs.Prelude.{◌≡◌, ◌<◌, ◌^◌, ℕ, List, None, Some, IfErr, IfOk, length, map};
ghost use Rattle.patr_model.specs.Build.{build_fault, entries_fault, grammar_fault, meanings};
ghost use Rattle.patr_grammar.specs.declared.grammar.Grammar as its;
ghost use Rattle.patr_lexicon.specs.declared.lexicon.Entry as an;
ghost use Rattle.patr_arena.specs.Arenas.{shown_of};
ghost use Rattle.patr_expand.specs.Seen.{IsRefusedBy, same};
ghost use Rattle.patr_library.specs.Stored.{AreOfEntries, HasItems, IsRefusedFor, built_rules, entries_of, grammar_of, word_at};

use crate::Memory;
use crate::building::keep_rules;
use crate::entries::keep_entries;
use crate::item::{BuildFault, EntryItem, RuleItem};
use patr_arena::{Nodes, PlainArena};
use patr_expand::{ExpandCause, Templates};
use patr_grammar::Grammar;
use patr_lexicon::Entry;
use patr_scratch::Scratch;
use patr_text::{Fault, Id};
use std::alloc::Global;

/// The nodes of all roots, and the items.
#[derive(Drop)]
pub(crate) struct Items {
    pub(crate) arena: PlainArena,
    pub(crate) rules: Vec<RuleItem>,
    pub(crate) entries: Vec<EntryItem>,
}

/// A template or a rule is refused.
fn in_grammar(fault: Fault<ExpandCause>) -> BuildFault
    ensures { (g : its.Grammar) (l : List an.Entry) → IsRefusedBy (grammar_fault same (grammar_of g)) fault → IsRefusedFor g l result }
{
    match fault {
        Fault::Memory => BuildFault::Memory,
        Fault::Refused(cause) => BuildFault::InGrammar(cause),
    }
}

/// An entry is refused, and nothing of the grammar.
fn in_lexicon(fault: Fault<ExpandCause>) -> BuildFault
    ensures { (g : its.Grammar) (l : List an.Entry) → grammar_fault same (grammar_of g) ≡ None → IsRefusedBy (entries_fault same (meanings same (grammar_of g).templates) (entries_of l)) fault → IsRefusedFor g l result }
{
    match fault {
        Fault::Memory => BuildFault::Memory,
        Fault::Refused(cause) => BuildFault::InLexicon(cause),
    }
}

/// The items of all rules and entries.
pub(crate) fn all_items(
    alloc: Global,
    grammar: &Grammar,
    lexicon: &[Entry],
) -> Result<Items, BuildFault>
    requires { length lexicon.now < 2 ^ 32 }
    ensures items { IfOk result (λ made. HasItems (built_rules grammar.now lexicon.now) (shown_of made.arena) made.rules.items made.entries.items) }
    ensures faultless { IfOk result (λ _. build_fault same (grammar_of grammar.now) (entries_of lexicon.now) ≡ None) }
    ensures refused { IfErr result (λ fault. IsRefusedFor grammar.now lexicon.now fault) }
    ensures few { IfOk result (λ made. (length made.rules.items < 2 ^ 32) × (length made.entries.items < 2 ^ 32)) }
{
    let mut scratch = Scratch::new(alloc);
    let mut arena = PlainArena::new(alloc);
    let mut rules = Vec::new(alloc);
    let mut entries = Vec::new(alloc);
    let templates = match Templates::new(alloc, grammar) {
        Ok(templates) => templates,
        Err(fault) => return Err(in_grammar(fault)),
    };
    if let Err(fault) = keep_rules(alloc, grammar, &mut arena, &mut rules, &mut scratch) {
        return Err(in_grammar(fault));
    }
    if let Err(fault) = keep_entries(
        alloc,
        &templates,
        lexicon,
        &mut arena,
        &mut entries,
        &mut scratch,
    ) {
        return Err(in_lexicon(fault));
    }
    // Each item has a block of its own, and of these an arena has fewer than 2^32.
    arena.blocks();
    Ok(Items {
        arena,
        rules,
        entries,
    })
}

/// The mothers of the items.
pub(crate) fn mothers(alloc: Global, rules: &[RuleItem]) -> Result<Vec<Id>, Memory>
    ensures { IfOk result (λ keys. keys.items ≡ map (λ i. i.mother) rules.now) }
{
    let mut keys = Vec::new(alloc);
    for item in rules {
        keys.push(item.mother)?;
    }
    Ok(keys)
}

/// The word of an item's entry.
fn word_of(lexicon: &[Entry], item: &EntryItem) -> Id
    requires { item.now.entry < length lexicon.now }
    ensures { word_at lexicon.now item.now.entry ≡ Some result.0 }
{
    lexicon[item.entry as usize].word
}

/// The words of the items' entries.
pub(crate) fn words(
    alloc: Global,
    lexicon: &[Entry],
    entries: &[EntryItem],
) -> Result<Vec<Id>, Memory>
    requires { AreOfEntries (length lexicon.now) entries.now }
    ensures { IfOk result (λ keys. map (λ key. Some key.0) keys.items ≡ map (λ i. word_at lexicon.now i.entry) entries.now) }
{
    let mut keys = Vec::new(alloc);
    for item in entries {
        keys.push(word_of(lexicon, item))?;
    }
    Ok(keys)
}
