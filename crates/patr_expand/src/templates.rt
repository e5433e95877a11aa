//! The templates of a grammar.
ghost use Rattle.patr_expand.specs.Known.{IsKnown, IsKnown-prop};

use crate::measured::Measured;
use patr_grammar::Template;

/// The templates of a grammar, found by their names, and how large each is.
#[derive(Drop)]
pub struct Templates<'a> {
    pub(crate) templates: &'a [Template],
    pub(crate) measured: Measured,
    ghost known: { IsKnown templates.now measured } by { IsKnown-prop templates.now measured },
}
