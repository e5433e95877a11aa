//! The cells of added arcs: an attribute, a target, and the next cell of the place's list.

use crate::{Added, Target};
use std::mem::size_of;

/// An added arc, and the cell of the next one of its list.
#[derive(Clone, Copy)]
pub(crate) struct ArcCell {
    pub(crate) attribute: u32,
    pub(crate) to: Target,
    pub(crate) next: Option<u32>,
}

// An added arc takes 28 bytes.
const _: () = prove!(size_of::<ArcCell>() == 28);

impl ArcCell {
    /// What fills room that is not used yet.
    pub(crate) const BLANK: ArcCell = ArcCell {
        attribute: 0,
        to: Target::Atom(0),
        next: None,
    };
}
