//! Reading path equations from lexemes.
ghost use Rattle.std.specs.Prelude.{◌<◌, ◌≤◌, length, OnOk};
ghost use Rattle.patr_model.specs.Productions.{head, attributes, path, term, equation};
ghost use Rattle.patr_grammar.specs.Reading.{path_seen, term_seen, equation_seen};
ghost use Rattle.patr_grammar.specs.Views.{by_id, head_seen, Gives};

use crate::grammar::{EquationText, PathText, TermText};
use crate::head::Head;
use crate::lexeme::Lexeme;
use crate::reader::{Reader, Refusal};
use patr_model::{Kind, What};
use patr_text::{Fault, Id};

impl Reader<'_> {
    /// The first word of a path.
    fn head(&mut self, wanted: Head) -> Result<Lexeme, Fault<Refusal>>
        ensures gives { Gives (λ t. t) result self.new.rest.now (head by_id (head_seen wanted.entry) self.old.rest.now) }
        ensures shorter { OnOk result (length self.new.rest.now < length self.old.rest.now) }
    {
        match self.rest {
            [first, rest @ ..] if first.is_kind(Kind::Word) => {
                if !wanted.fits(first) {
                    return Err(Fault::Refused(Refusal::NotAConstituent));
                }
                self.rest = rest;
                Ok(*first)
            }
            _ => Err(Fault::Refused(Refusal::Expected(wanted.first_word()))),
        }
    }

    /// The words that follow the first one of a path, of which there may be so many.
    fn attributes(&mut self, room: usize) -> Result<Vec<Id>, Fault<Refusal>>
        ensures gives { Gives (λ v. v.items) result self.new.rest.now (attributes by_id room self.old.rest.now) }
        ensures shorter { length self.new.rest.now ≤ length self.old.rest.now }
    {
        let mut found = Vec::new(self.alloc);
        let mut left = room;
        'words: loop {
            match self.rest {
                [first, rest @ ..] if first.is_kind(Kind::Word) => {
                    if left == 0 {
                        return Err(Fault::Refused(Refusal::PathTooLong));
                    }
                    found.push(first.word)?;
                    left -= 1;
                    self.rest = rest;
                }
                _ => return Ok(found),
            }
        }
    }

    /// A path.
    #[tactic(auto, unfolding(patr_model::specs::Productions::path))]
    fn path(&mut self, head: Head, what: What) -> Result<PathText, Fault<Refusal>>
        ensures gives { Gives path_seen result self.new.rest.now (path by_id (head_seen head.entry) what self.old.rest.now) }
        ensures shorter { OnOk result (length self.new.rest.now < length self.old.rest.now) }
    {
        self.one(Kind::Less, what)?;
        let first = self.head(head)?;
        let further = self.attributes(head.room())?;
        self.one(Kind::Greater, What::Greater)?;
        Ok(head.path(first.word, further)?)
    }

    /// What a path equals: another path, or an atom.
    #[tactic(auto, unfolding(patr_model::specs::Productions::term))]
    fn term(&mut self, head: Head) -> Result<TermText, Fault<Refusal>>
        ensures gives { Gives term_seen result self.new.rest.now (term by_id (head_seen head.entry) self.old.rest.now) }
        ensures shorter { OnOk result (length self.new.rest.now < length self.old.rest.now) }
    {
        if self.begins(Kind::Less) {
            let path = self.path(head, What::PathOrAtom)?;
            return Ok(TermText::Path(path));
        }
        let atom = self.one(Kind::Word, What::PathOrAtom)?;
        Ok(TermText::Atom(atom.word))
    }

    /// A path equation.
    #[tactic(auto, unfolding(patr_model::specs::Productions::equation))]
    pub fn equation(&mut self, head: Head, what: What) -> Result<EquationText, Fault<Refusal>>
        ensures gives { Gives equation_seen result self.new.rest.now (equation by_id (head_seen head.entry) what self.old.rest.now) }
        ensures shorter { OnOk result (length self.new.rest.now < length self.old.rest.now) }
    {
        let left = self.path(head, what)?;
        self.one(Kind::Equal, What::Equal)?;
        let right = self.term(head)?;
        Ok(EquationText { left, right })
    }
}
