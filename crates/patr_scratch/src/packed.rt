//! What was set at a place, in 28 bytes: the kinds stand beside one another in a byte each, and their numbers behind them.
ghost use Rattle.std.specs.Prelude.{◌≡◌, Some};
ghost use Rattle.patr_scratch.specs.Marks.{copy_of, forward_of, unpacked};
ghost use Rattle.patr_scratch.specs.declared.packed.Numbers.{Numbers};

use crate::{Copied, Place, Side, Target, Visit};
use std::mem::size_of;

/// What a place is forwarded to, without its numbers.
#[derive(Clone, Copy)]
enum Forwarded {
    /// It is not forwarded.
    Nowhere,
    /// An atom.
    ToAtom,
    /// A place of the left side.
    ToLeft,
    /// A place of the right side.
    ToRight,
}

/// What a place was copied to, without its numbers.
#[derive(Clone, Copy)]
enum CopiedAs {
    /// It was not copied.
    Nothing,
    /// A node that was there before.
    Old,
    /// A new node.
    New,
}

/// The numbers of an address, or the one number of a symbol or a new node, with 0 behind it.
#[derive(Clone, Copy)]
struct Numbers {
    first: u32,
    second: u32,
}

/// The first and the last cell of a list of added arcs.
#[derive(Clone, Copy)]
pub(crate) struct Ends {
    pub(crate) first: u32,
    pub(crate) last: u32,
}

/// What was set at a place. Numbers of a kind that says that there are none hold anything.
#[derive(Clone, Copy)]
pub(crate) struct PackedMark {
    forwarded: Forwarded,
    copied: CopiedAs,
    visit: Visit,
    has_arcs: bool,
    forward: Numbers,
    copy: Numbers,
    ends: Ends,
}

// A mark takes 28 bytes.
const _: () = prove!(size_of::<PackedMark>() == 28);

/// No numbers.
const NONE: Numbers = Numbers {
    first: 0,
    second: 0,
};

impl PackedMark {
    /// The mark of a place where nothing was set.
    pub(crate) const BLANK: PackedMark = PackedMark {
        forwarded: Forwarded::Nowhere,
        copied: CopiedAs::Nothing,
        visit: Visit::Unseen,
        has_arcs: false,
        forward: NONE,
        copy: NONE,
        ends: Ends { first: 0, last: 0 },
    };

    /// Where the place is forwarded to.
    pub(crate) fn forward(&self) -> Option<Target>
        ensures { result ≡ (unpacked self.now).forward }
    {
        let Numbers { first, second } = self.forward;
        match self.forwarded {
            Forwarded::Nowhere => None,
            Forwarded::ToAtom => Some(Target::Atom(first)),
            Forwarded::ToLeft => Some(Target::Place(Place {
                side: Side::Left,
                block: first,
                offset: second,
            })),
            Forwarded::ToRight => Some(Target::Place(Place {
                side: Side::Right,
                block: first,
                offset: second,
            })),
        }
    }

    /// What the place was copied to.
    pub(crate) fn copied(&self) -> Option<Copied>
        ensures { result ≡ (unpacked self.now).copied }
    {
        let Numbers { first, second } = self.copy;
        match self.copied {
            CopiedAs::Nothing => None,
            CopiedAs::Old => Some(Copied::Old {
                block: first,
                offset: second,
            }),
            CopiedAs::New => Some(Copied::New(first)),
        }
    }

    /// How far a walk is with the place.
    pub(crate) fn visit(&self) -> Visit
        ensures { result ≡ (unpacked self.now).visit }
    {
        self.visit
    }

    /// The ends of its list of added arcs.
    pub(crate) fn added(&self) -> Option<Ends>
        ensures { result ≡ (unpacked self.now).added }
    {
        if self.has_arcs { Some(self.ends) } else { None }
    }

    /// Sets where the place is forwarded to.
    pub(crate) fn set_forward(&mut self, to: Target)
        ensures { unpacked self.new ≡ record (unpacked self.old) { forward = Some to } }
    {
        let (forwarded, forward) = packed_target(to);
        self.forwarded = forwarded;
        self.forward = forward;
    }

    /// Sets what the place was copied to.
    pub(crate) fn set_copied(&mut self, made: Copied)
        ensures { unpacked self.new ≡ record (unpacked self.old) { copied = Some made } }
    {
        let (copied, copy) = packed_copy(made);
        self.copied = copied;
        self.copy = copy;
    }

    /// Sets how far a walk is with the place.
    pub(crate) fn set_visit(&mut self, state: Visit)
        ensures { unpacked self.new ≡ record (unpacked self.old) { visit = state } }
    {
        self.visit = state;
    }

    /// Sets the ends of its list of added arcs.
    pub(crate) fn set_added(&mut self, added: Option<Ends>)
        ensures { unpacked self.new ≡ record (unpacked self.old) { added = added } }
    {
        match added {
            None => self.has_arcs = false,
            Some(ends) => {
                self.has_arcs = true;
                self.ends = ends;
            }
        }
    }
}

/// The kind of a target, and its numbers.
fn packed_target(to: Target) -> (Forwarded, Numbers)
    ensures { forward_of result.0 result.1 ≡ Some to }
{
    match to {
        Target::Atom(symbol) => (
            Forwarded::ToAtom,
            Numbers {
                first: symbol,
                second: 0,
            },
        ),
        Target::Place(at) => (
            towards(at.side),
            Numbers {
                first: at.block,
                second: at.offset,
            },
        ),
    }
}

/// The kind of a place of this side.
fn towards(side: Side) -> Forwarded
    ensures { (numbers : Numbers) → forward_of result numbers ≡ Some (Target.Place (record { side = side; block = numbers.first; offset = numbers.second })) }
{
    match side {
        Side::Left => Forwarded::ToLeft,
        Side::Right => Forwarded::ToRight,
    }
}

/// The kind of a copy, and its numbers.
fn packed_copy(made: Copied) -> (CopiedAs, Numbers)
    ensures { copy_of result.0 result.1 ≡ Some made }
{
    match made {
        Copied::Old { block, offset } => (
            CopiedAs::Old,
            Numbers {
                first: block,
                second: offset,
            },
        ),
        Copied::New(number) => (
            CopiedAs::New,
            Numbers {
                first: number,
                second: 0,
            },
        ),
    }
}
