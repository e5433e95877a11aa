//! For each key the places at which it stands.
ghost use Rattle.std.specs.Prelude.{◌≡◌, ◌<◌, ◌^◌, [], ℕ, get_or, length, IfOk};
ghost use Rattle.patr_lists.specs.Numbers.{places};
ghost use Rattle.patr_library.specs.Lists.{has_key};

use crate::Memory;
use patr_lists::NumberLists;
use patr_text::Id;
use std::alloc::{AllocError, Global};

/// For each key the places at which it stands, rising.
pub(crate) fn index_of(alloc: Global, keys: &[Id]) -> Result<NumberLists, Memory>
    requires { length keys.now < 2 ^ 32 }
    ensures { IfOk result (λ lists. (key : ℕ) → get_or lists key [] ≡ places (has_key key) 0 keys.now) }
{
    let mut lists = NumberLists::empty(alloc, 0)?;
    for (place, key) in keys.iter().enumerate() {
        lists.grow(alloc, key.0 as usize)?;
        if !lists.put(key.0 as usize, place as u32) {
            return Err(AllocError);
        }
    }
    Ok(lists)
}
