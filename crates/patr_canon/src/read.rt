//! What a canonical text builds.
ghost use Rattle.std.specs.Prelude.{◌≡◌, ◌≤◌, ◌<◌, ◌+◌, ◌-◌, ◌^◌, length, IfOk};
ghost use Rattle.patr_text.specs.Texts.{Extends};
ghost use Rattle.patr_canon.specs.Built.{HasBuilt, IsReadBelow};

use crate::items::{Expected, item_front};
use crate::reader::Reader;
use patr_text::{Memory, Symbols};
use std::alloc::Global;

/// What a text builds; `None` where the text is none that is written of a tree. Symbols get their numbers.
pub(crate) fn read(
    alloc: Global,
    symbols: &mut Symbols,
    text: &str,
) -> Result<Option<Reader>, Memory>
    requires room { length symbols.old + length text.now < 2 ^ 32 - 1 }
    ensures table { Extends symbols.old symbols.new }
    ensures limit { length symbols.new ≤ length symbols.old + length text.now }
    ensures built { IfOk result (HasBuilt symbols.new text.now) }
    ensures below { IfOk result (IsReadBelow (length symbols.new)) }
{
    symbols.recall();
    let mut reader = Reader::new(alloc);
    let mut expected = Expected::Value;
    let mut left = text;
    while !left.is_empty() {
        let Some((event, rest)) = item_front(alloc, symbols, expected, left)? else {
            return Ok(None);
        };
        reader.feed(alloc, event)?;
        expected = event.expected_behind();
        left = rest;
    }
    Ok(Some(reader))
}
