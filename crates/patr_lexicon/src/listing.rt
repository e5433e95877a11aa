//! The numbers of entries by their words.
ghost use Rattle.std.specs.Prelude.{◌≡◌, ◌^◌, ◌<◌, length, IfOk};
ghost use Rattle.patr_lexicon.specs.Entries.{IsListed};

use crate::lexicon::Entry;
use patr_lists::NumberLists;
use patr_text::Memory;
use std::alloc::{AllocError, Global};

/// By the number of a word, the numbers of its entries, rising.
pub fn numbers_by_word(alloc: Global, entries: &[Entry]) -> Result<NumberLists, Memory>
    requires { length entries.now < 2 ^ 32 }
    ensures { IfOk result (λ lists. IsListed entries.now lists) }
{
    let mut lists = NumberLists::empty(alloc, 0)?;
    for (number, entry) in entries.iter().enumerate() {
        let word = entry.word.0 as usize;
        lists.grow(alloc, word)?;
        if !lists.put(word, number as u32) {
            return Err(AllocError);
        }
    }
    Ok(lists)
}
