//! Structures read back from their canonical texts.
ghost use Rattle.std.specs.Prelude.{◌≡◌, ◌≤◌, ◌<◌, ◌+◌, ◌-◌, ◌^◌, length, IfOk, MatchBool};
ghost use Rattle.patr_model.specs.Laws.{OfValue};
ghost use Rattle.patr_model.specs.Reading.{is_below};
ghost use Rattle.patr_model.specs.Structure.{IsBelow};
ghost use Rattle.patr_model.specs.Table.{table_look};
ghost use Rattle.patr_model.specs.Text.{canonical};
ghost use Rattle.patr_text.specs.Texts.{Extends};
ghost use Rattle.patr_arena.specs.Paths.{ids};
ghost use Rattle.patr_canon.specs.Made.{value_seen};
ghost use Rattle.patr_canon.specs.Nodes.{NodesAreBelow};
ghost use Rattle.patr_canon.specs.ReadBack.{Answers, structure_of};
ghost use Rattle.patr_canon.specs.Readers.{target_seen};

use crate::made::{block_of, copied};
use crate::read::read;
use crate::reader::Target;
use crate::text::canonical;
use patr_arena::{Addr, Block, PlainArena, Ref, Value};
use patr_text::{Fault, Id, Memory, Symbols};
use std::alloc::{AllocError, Global};

/// The text is that of no structure.
#[derive(Clone, Copy, Debug, PartialEq, Eq)]
pub struct NotCanonical;

impl Target {
    /// What this is in an arena of one block.
    fn in_arena(self) -> Value
        ensures { result ≡ value_seen self }
    {
        match self {
            Target::Atom(atom) => Value::Atom(atom),
            Target::Node(offset) => Value::Node(Addr { block: 0, offset }),
        }
    }

    /// Whether this is an atom, or one of so many nodes.
    fn is_there(self, count: u32) -> bool
        ensures { result ≡ is_below count (target_seen self) }
    {
        match self {
            Target::Atom(_) => true,
            Target::Node(place) => place < count,
        }
    }
}

/// Whether the canonical text of this value of the block is the text.
fn prints(
    alloc: Global,
    symbols: &Symbols,
    order: &[Id],
    block: &Block,
    root: Target,
    text: &str,
) -> Result<bool, Memory>
    requires own { NodesAreBelow (length symbols.now) block.now }
    requires held { IsBelow (length block.now) (target_seen root) }
    requires symbol { OfValue (λ c. c < length symbols.now) (target_seen root) }
    ensures { IfOk result (λ same. MatchBool same (canonical (table_look symbols.now (ids order.now)) (structure_of block.now) (target_seen root) ≡ text.now) (canonical (table_look symbols.now (ids order.now)) (structure_of block.now) (target_seen root) ≡ text.now → ⊥)) }
{
    let mut arena = PlainArena::new(alloc);
    let Ok(_) = arena.push(copied(alloc, block)?) else {
        return Err(AllocError);
    };
    let written = canonical(alloc, symbols, order, &arena, root.in_arena())?;
    Ok(written.as_str() == text)
}

/// A structure whose canonical text this is: a block without old addresses, and where the value stands in it. Atoms
/// and attributes get numbers, which the symbols have from then on, also after a refusal.
///
/// `NotCanonical` is answered exactly where no value of a structure has the text: it is none that `canonical` writes,
/// or its arcs stand in another order, or its numbers are others. Else the call fails for want of memory alone.
pub fn read_canonical(
    alloc: Global,
    symbols: &mut Symbols,
    order: &[Id],
    text: &str,
) -> Result<(Block, Ref), Fault<NotCanonical>>
    requires room { length symbols.old + length text.now < 2 ^ 32 - 1 }
    ensures table { Extends symbols.old symbols.new }
    ensures limit { length symbols.new ≤ length symbols.old + length text.now }
    ensures answer { Answers symbols.new (ids order.now) text.now result }
{
    let Some(reader) = read(alloc, symbols, text)? else {
        return Err(Fault::Refused(NotCanonical));
    };
    let Some(root) = reader.root else {
        return Err(Fault::Refused(NotCanonical));
    };
    let Some(block) = block_of(alloc, &reader.nodes)? else {
        return Err(Fault::Refused(NotCanonical));
    };
    if !root.is_there(block.len()) {
        return Err(Fault::Refused(NotCanonical));
    }
    let same = prints(alloc, symbols, order, &block, root, text)?;
    if !same {
        return Err(Fault::Refused(NotCanonical));
    }
    Ok((block, root.in_block()))
}
