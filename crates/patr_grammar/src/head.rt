//! First words of paths.
ghost use Rattle.std.specs.Prelude.{◌≡◌, IfOk, nat_eq};
ghost use Rattle.std.specs.List.{list_any};
ghost use Rattle.patr_model.specs.Productions.{fits_head, first_word, room, headed};
ghost use Rattle.patr_text.specs.declared.symbols.Id as ids;
ghost use Rattle.patr_grammar.specs.Reading.{path_seen};
ghost use Rattle.patr_grammar.specs.Views.{by_id, head_seen};

use crate::grammar::PathText;
use crate::lexeme::Lexeme;
use patr_model::What;
use patr_text::{Id, Memory};

/// The most attributes of a path.
const MOST_ATTRIBUTES: usize = 32;

/// What the first word of a path has to be.
#[derive(Clone, Copy, Debug)]
pub enum Head<'a> {
    /// One of these symbols of a rule. The attributes stand behind it.
    AmongSymbols(&'a [Id]),
    /// Any word, which is the first attribute.
    AnyAttribute,
}

/// The symbol is one of these.
fn is_among(symbol: Id, symbols: &[Id]) -> bool
    ensures { result ≡ list_any (λ (x : ids.Id). nat_eq symbol.0 x.0) symbols.now }
{
    symbols.iter().any(|other| symbol == *other)
}

impl Head<'_> {
    /// The word may be the first one of a path.
    pub fn fits(self, word: &Lexeme) -> bool
        ensures { result ≡ fits_head by_id (head_seen self.entry) word.now }
    {
        match self {
            Head::AmongSymbols(symbols) => {
                !word.is_clause_word() && is_among(word.word, symbols)
            }
            Head::AnyAttribute => true,
        }
    }

    /// What has to stand there.
    pub fn first_word(self) -> What
        ensures { result ≡ first_word (head_seen self.entry) }
    {
        match self {
            Head::AmongSymbols(_) => What::Symbol,
            Head::AnyAttribute => What::Attribute,
        }
    }

    /// How many words may follow the first one.
    pub fn room(self) -> usize
        ensures { result ≡ room (head_seen self.entry) }
    {
        match self {
            Head::AmongSymbols(_) => MOST_ATTRIBUTES,
            Head::AnyAttribute => MOST_ATTRIBUTES - 1,
        }
    }

    /// The path of a first word and those that follow it.
    pub fn path(self, word: Id, further: Vec<Id>) -> Result<PathText, Memory>
        ensures { IfOk result (λ p. path_seen p ≡ headed (head_seen self.entry) word further.items) }
    {
        match self {
            Head::AmongSymbols(_) => Ok(PathText {
                head: Some(word),
                attributes: further,
            }),
            Head::AnyAttribute => {
                let mut attributes = further;
                attributes.insert(0, word)?;
                Ok(PathText {
                    head: None,
                    attributes,
                })
            }
        }
    }
}
