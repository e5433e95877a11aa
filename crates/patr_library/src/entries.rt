//! The items of entries, each solved like a rule of one constituent.
ghost use Rattle.std.specs.Prelude.{◌≡◌, ◌<◌, ◌≤◌, ◌^◌, ◌++◌, ◌∷◌, [], None, Some, IfErr, IfOk, length, map};
ghost use Rattle.std.specs.List.{AllByRecursion};
ghost use Rattle.patr_model.specs.Structure.{Node, arc};
ghost use Rattle.patr_model.specs.Build.{entries_fault};
ghost use Rattle.patr_model.specs.Variants.{AreWithin};
ghost use Rattle.patr_lexicon.specs.Seen.{entry_seen};
ghost use Rattle.patr_arena.specs.Arenas.{shown_of};
ghost use Rattle.patr_expand.specs.Meant.{meant_by};
ghost use Rattle.patr_expand.specs.Seen.{IsRefusedBy, fault_of_features, same};
ghost use Rattle.patr_library.specs.Own.{IsOwn, IsOwnBlock, own_nodes, own_value};
ghost use Rattle.patr_library.specs.Solved.{HasSlot};
ghost use Rattle.patr_library.specs.Built.{all_numbered, numbered_from};
ghost use Rattle.patr_library.specs.Entries.{AreEntriesDealt, IsEntryDealt, StaysAlone, all_variants_of, entry_variants_of, variant_of};

use crate::building::store;
use crate::item::EntryItem;
use crate::solving::{Facts, Start, solved};
use patr_arena::{Block, Memory, Nodes, PlainArena, Ref};
use patr_expand::{Equation, ExpandCause, Templates};
use patr_lexicon::Entry;
use patr_scratch::Scratch;
use patr_text::Fault;
use std::alloc::Global;

/// What the node of one slot has in it.
fn slot_value(block: &Block, root: u32) -> Ref
    requires own { IsOwnBlock block.now }
    requires root { root < length block.now }
    requires slot { HasSlot (own_nodes block.now) (Node root) }
    ensures arc { arc (own_nodes block.now) (Node root) 0 ≡ Some (own_value result) }
    ensures own { IsOwn root result }
{
    block.arcs(root)[0].to
}

/// Keeps an item of the entry's variant with these equations of its features, where it has a solution.
fn keep_variant(
    alloc: Global,
    entry: &Entry,
    number: u32,
    variant: u32,
    features: &[Equation],
    arena: &mut PlainArena,
    items: &mut Vec<EntryItem>,
    scratch: &mut Scratch,
) -> Result<(), Memory>
    requires { AreWithin 1 (variant_of entry.now features.now).equations }
    ensures { IfOk result (λ _. IsEntryDealt (shown_of arena.old) (shown_of arena.new) number variant (variant_of entry.now features.now) items.old.items items.new.items) }
{
    let start = Start::Entry(Facts {
        category: entry.category,
        word: entry.word,
        gloss: entry.gloss,
    });
    let Some(mut least) = solved(alloc, start, features, scratch)? else {
        return Ok(());
    };
    // The node of the slot is of no use any more; what is in the slot stands before it.
    let to = slot_value(&least.block, least.root);
    least.block.truncate(least.root);
    let made = store(arena, least)?;
    let root = arena.resolve(made.root.block, to);
    items.push(EntryItem {
        entry: number,
        variant,
        root,
        nodes: made.nodes,
        arcs: made.arcs,
    })?;
    Ok(())
}

/// Keeps the items of an entry's variants that have a solution.
fn keep_variants(
    alloc: Global,
    entry: &Entry,
    number: u32,
    variants: &[Vec<Equation>],
    arena: &mut PlainArena,
    items: &mut Vec<EntryItem>,
    scratch: &mut Scratch,
) -> Result<(), Memory>
    requires few { length variants.now ≤ 256 }
    requires alone { AllByRecursion (StaysAlone entry.now) variants.now }
    ensures { IfOk result (λ _. AreEntriesDealt (shown_of arena.old) (shown_of arena.new) (numbered_from number 0 (all_variants_of entry.now variants.now)) items.old.items items.new.items) }
{
    for (variant, features) in variants.iter().enumerate() {
        let variant = variant as u32;
        keep_variant(
            alloc, entry, number, variant, features, arena, items, scratch,
        )?;
    }
    Ok(())
}

/// Keeps the items of one entry, whose names are those of templates.
fn keep_one(
    alloc: Global,
    templates: &Templates<'_>,
    entry: &Entry,
    number: u32,
    arena: &mut PlainArena,
    items: &mut Vec<EntryItem>,
    scratch: &mut Scratch,
) -> Result<(), Fault<ExpandCause>>
    ensures dealt { IfOk result (λ _. AreEntriesDealt (shown_of arena.old) (shown_of arena.new) (numbered_from number 0 (entry_variants_of (meant_by templates.now) entry.now)) items.old.items items.new.items) }
    ensures faultless { IfOk result (λ _. fault_of_features (meant_by templates.now) entry.now.line entry.now.features.items ≡ None) }
    ensures refused { IfErr result (λ fault. IsRefusedBy (fault_of_features (meant_by templates.now) entry.now.line entry.now.features.items) fault) }
{
    let variants = templates.expand(alloc, &entry.features, entry.line)?;
    keep_variants(alloc, entry, number, &variants, arena, items, scratch)?;
    Ok(())
}

/// Keeps the items of all entries.
pub(crate) fn keep_entries(
    alloc: Global,
    templates: &Templates<'_>,
    entries: &[Entry],
    arena: &mut PlainArena,
    items: &mut Vec<EntryItem>,
    scratch: &mut Scratch,
) -> Result<(), Fault<ExpandCause>>
    requires { length entries.now < 2 ^ 32 }
    ensures dealt { IfOk result (λ _. AreEntriesDealt (shown_of arena.old) (shown_of arena.new) (all_numbered 0 (map (entry_variants_of (meant_by templates.now)) entries.now)) items.old.items items.new.items) }
    ensures faultless { IfOk result (λ _. entries_fault same (meant_by templates.now) (map entry_seen entries.now) ≡ None) }
    ensures refused { IfErr result (λ fault. IsRefusedBy (entries_fault same (meant_by templates.now) (map entry_seen entries.now)) fault) }
{
    for (number, entry) in entries.iter().enumerate() {
        keep_one(
            alloc,
            templates,
            entry,
            number as u32,
            arena,
            items,
            scratch,
        )?;
    }
    Ok(())
}
