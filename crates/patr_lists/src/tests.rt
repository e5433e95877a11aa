//! A table of lists that grows.
ghost use Rattle.std.specs.Prelude.{◌<◌, length};

use super::NumberLists;
use std::alloc::AllocError;
use std::test::Fail;

/// Puts a number behind a list. An error where there is no room.
fn put(table: &mut NumberLists, place: usize, number: u32) -> Result<(), Fail>
    requires { place < length table.old }
{
    if !table.put(place, number) {
        return Err(AllocError.into());
    }
    Ok(())
}

/// The lists by place; there is none at the last one.
const LISTS: [&[u32]; 4] = [&[4], &[], &[7], &[]];

#[test]
fn lists_by_place(rt: HostRuntime) -> Result<(), Fail> {
    let mut table = NumberLists::empty(rt.alloc(), 1)?;
    put(&mut table, 0, 4)?;
    table.grow(rt.alloc(), 2)?;
    put(&mut table, 2, 7)?;
    for (place, want) in LISTS.iter().enumerate() {
        assert_eq!(rt; table.list(place), *want, "place {place}");
    }
    Ok(())
}
