//! Tests of the public calls, and worked examples in tables.
ghost use Rattle.std.specs.Prelude.{◌≤◌, IfOk};
ghost use Rattle.patr_scratch.specs.Contents.{HasPlace, HasRoom, IsBlank};

use super::*;
use std::alloc::Global;
use std::test::Fail;

/// A scratch with room for two places on each side, two visits, two places that are left and two added arcs, that begins at a generation.
fn with_room(alloc: Global, stamp: u32) -> Result<Scratch, Fail>
    requires { 1 ≤ stamp }
    ensures blank { IfOk result (λ scratch. IsBlank scratch) }
    ensures room { IfOk result (λ scratch. HasRoom scratch 2 2 2) }
{
    let mut scratch = Scratch::with_stamp(alloc, stamp);
    scratch.reserve(2, 2, 2)?;
    Ok(scratch)
}

/// The attributes of a place's added arcs, each with a space behind it.
fn attributes(alloc: Global, scratch: &Scratch, side: Side, number: u64) -> Result<String, Fail>
    requires { HasPlace scratch.now side number }
{
    let mut shown = String::new(alloc);
    let mut next = scratch.first_arc(side, number);
    while let Some(cell) = next {
        let arc = scratch.arc_at(cell);
        shown.push_str(&format!(in alloc; "{} ", arc.attribute)?)?;
        next = arc.next;
    }
    Ok(shown)
}

/// Two places, of which the first one's arcs are moved to the second one.
const MOVES: [(Side, u64, Side, u64); 4] = [
    (Side::Left, 0, Side::Left, 1),
    (Side::Left, 0, Side::Right, 0),
    (Side::Right, 0, Side::Left, 0),
    (Side::Right, 1, Side::Right, 0),
];

#[test]
fn moved_arcs_come_first(rt: HostRuntime) -> Result<(), Fail> {
    let alloc = rt.alloc();
    for (from_side, from, to_side, to) in MOVES {
        assert!(rt; from < 2 && to < 2 && (from_side != to_side || from != to));
        let mut scratch = with_room(alloc, 1)?;
        scratch.begin();
        scratch.add_arc(from_side, from, 7, Target::Atom(1));
        scratch.add_arc(to_side, to, 8, Target::Atom(2));
        scratch.move_arcs(from_side, from, to_side, to);
        assert_eq!(rt; attributes(alloc, &scratch, to_side, to)?.as_str(), "7 8 ");
        assert_eq!(rt; scratch.first_arc(from_side, from), None);
    }
    Ok(())
}

#[test]
fn moving_takes_no_room(rt: HostRuntime) -> Result<(), Fail> {
    let alloc = rt.alloc();
    let mut scratch = with_room(alloc, 1)?;
    scratch.add_arc(Side::Left, 0, 7, Target::Atom(1));
    scratch.move_arcs(Side::Left, 0, Side::Right, 1);
    scratch.add_arc(Side::Right, 1, 8, Target::Atom(2));
    assert_eq!(rt;
        attributes(alloc, &scratch, Side::Right, 1)?.as_str(),
        "8 7 "
    );
    Ok(())
}

#[test]
fn marks_are_of_one_side(rt: HostRuntime) -> Result<(), Fail> {
    let mut scratch = with_room(rt.alloc(), 1)?;
    scratch.begin();
    scratch.set_copy(Side::Right, 1, Copied::New(0));
    assert_eq!(rt; scratch.copy_of(Side::Left, 1), None);
    assert_eq!(rt; scratch.copy_of(Side::Right, 1), Some(Copied::New(0)));
    Ok(())
}

#[test]
fn what_was_pushed_last_comes_first(rt: HostRuntime) -> Result<(), Fail> {
    let mut scratch = with_room(rt.alloc(), 1)?;
    let place = Place {
        side: Side::Left,
        block: 0,
        offset: 0,
    };
    scratch.push_visit(place);
    assert_eq!(rt; scratch.pop_visit(), Some(place));
    assert_eq!(rt; scratch.pop_visit(), None);
    scratch.push_pair(Target::Atom(1), Target::Place(place));
    scratch.push_pair(Target::Atom(2), Target::Atom(3));
    assert_eq!(rt;
        scratch.pop_pair(),
        Some((Target::Atom(2), Target::Atom(3)))
    );
    assert_eq!(rt;
        scratch.pop_pair(),
        Some((Target::Atom(1), Target::Place(place)))
    );
    assert_eq!(rt; scratch.pop_pair(), None);
    Ok(())
}

#[test]
fn places_that_were_left_stay_in_order(rt: HostRuntime) -> Result<(), Fail> {
    let mut scratch = with_room(rt.alloc(), 1)?;
    let first = Place {
        side: Side::Left,
        block: 0,
        offset: 1,
    };
    let second = Place {
        side: Side::Right,
        block: 0,
        offset: 0,
    };
    scratch.push_order(first);
    scratch.push_order(second);
    assert_eq!(rt; scratch.order_at(0), first);
    assert_eq!(rt; scratch.order_at(1), second);
    scratch.begin();
    assert_eq!(rt; scratch.order_len(), 0);
    Ok(())
}

#[test]
fn room_is_made_where_it_is_missing(rt: HostRuntime) -> Result<(), Fail> {
    let mut scratch = with_room(rt.alloc(), 1)?;
    scratch.begin();
    scratch.set_visit(Side::Left, 1, Visit::Left);
    scratch.make_room(2, 2, 2)?;
    assert_eq!(rt; scratch.visit(Side::Left, 1), Visit::Left);
    scratch.make_room(3, 2, 2)?;
    assert_eq!(rt; scratch.visit(Side::Left, 2), Visit::Unseen);
    Ok(())
}

/// First generations from which a few steps lead up to the last generation and past it.
const STAMPS: [u32; 4] = [1, 4_294_967_293, 4_294_967_294, 4_294_967_295];

#[test]
fn a_generation_sees_its_own_marks(rt: HostRuntime) -> Result<(), Fail> {
    for stamp in STAMPS {
        assert!(rt; stamp >= 1);
        let mut scratch = with_room(rt.alloc(), stamp)?;
        for round in 0..3_u32 {
            scratch.begin();
            assert_eq!(rt;
                scratch.forward(Side::Left, 0),
                None,
                "round {round} from {stamp}"
            );
            assert_eq!(rt;
                scratch.visit(Side::Left, 1),
                Visit::Unseen,
                "round {round} from {stamp}"
            );
            scratch.set_forward(Side::Left, 0, Target::Atom(3));
            scratch.set_visit(Side::Left, 1, Visit::Entered);
            assert_eq!(rt; scratch.forward(Side::Left, 0), Some(Target::Atom(3)));
            assert_eq!(rt; scratch.visit(Side::Left, 1), Visit::Entered);
        }
    }
    Ok(())
}

#[test]
fn the_side_that_goes_first_stays(rt: HostRuntime) -> Result<(), Fail> {
    let mut scratch = with_room(rt.alloc(), 1)?;
    assert_eq!(rt; scratch.goes_first(), Side::Right);
    scratch.set_goes_first(Side::Left);
    scratch.begin();
    assert_eq!(rt; scratch.goes_first(), Side::Left);
    Ok(())
}
