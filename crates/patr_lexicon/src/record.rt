//! A record of a lexicon while it is read.
ghost use Rattle.std.specs.Prelude.{◌≡◌, ◌+◌, ◌-◌, ◌^◌, ◌<◌, ◌≤◌, ◌∷◌, [], List, ℕ, length, IfOk, IfErr, OnOk, Ok};
ghost use Rattle.patr_model.specs.declared.field.Marker.TheVariants as markers;
ghost use Rattle.patr_model.specs.LexiconText.{EntryText as Text, gloss_of};
ghost use Rattle.patr_model.specs.Renaming.{Both};
ghost use Rattle.patr_text.specs.Texts.{Extends};
ghost use Rattle.patr_lexicon.specs.Records.{opened, with_field, with_pieces, closed};
ghost use Rattle.patr_grammar.specs.Reading.{IsText};
ghost use Rattle.patr_lexicon.specs.Reading.{IsEntryOf};
ghost use Rattle.patr_lexicon.specs.Laid.{StandsAt, end_byte, AreLaid, AreLaidBefore};
ghost use Rattle.patr_lexicon.specs.Parts.{piece_seen, record_seen};
ghost use Rattle.patr_lexicon.specs.States.{Closes, FailsFor, most_texts, some_text};

use crate::features::Features;
use crate::gloss::Gloss;
use crate::lexicon::{Entry, LexiconCause};
use crate::line::{Piece, trim};
use crate::words::Words;
use patr_model::Marker;
use patr_text::{Fault, Id, Memory, Symbols};
use std::alloc::Global;

/// The number of a gloss. An empty one is none.
fn gloss_id(symbols: &mut Symbols, gloss: &str) -> Result<Option<Id>, Memory>
    requires { length symbols.old + some_text gloss.now < 2 ^ 32 }
    ensures number { IfOk result (λ id. Both (IsText symbols.new) id (gloss_of gloss.now)) }
    ensures extends { Extends symbols.old symbols.new }
    ensures growth { length symbols.new ≤ length symbols.old + some_text gloss.now }
{
    if gloss.is_empty() {
        return Ok(None);
    }
    let id = symbols.intern(gloss)?;
    Ok(Some(id))
}

/// A record as far as it is read.
#[derive(Drop)]
pub struct Record<'a> {
    /// The line of its `\w`.
    line: u32,
    word: Words<'a>,
    /// The words of its last category.
    category: Words<'a>,
    /// Its last gloss.
    gloss: Gloss<'a>,
    features: Features<'a>,
}

impl<'a> Record<'a> {
    /// A record whose `\w` has this piece so far.
    pub fn new(alloc: Global, piece: Piece<'a>) -> Record<'a>
        ensures seen { record_seen result ≡ with_pieces (opened piece.entry.line) markers.Word (piece_seen piece.entry ∷ []) }
        ensures laid { (text : List ℕ) (at : ℕ) → AreLaidBefore text at result.features }
    {
        Record {
            line: piece.line,
            word: Words::Empty.and_words(trim(piece.text)),
            category: Words::Empty,
            gloss: Gloss::new(alloc),
            features: Features::new(alloc),
        }
    }

    /// A field of this marker begins: the last category or gloss counts.
    pub fn begin(&mut self, alloc: Global, marker: Marker)
        ensures seen { record_seen self.new ≡ with_field (record_seen self.old) marker }
        ensures features { self.new.features ≡ self.old.features }
    {
        match marker {
            Marker::Category => self.category = Words::Empty,
            Marker::Gloss => self.gloss = Gloss::new(alloc),
            Marker::Word | Marker::Features | Marker::Other => {}
        }
    }

    /// Takes in one more piece of the field that has begun, which has this marker.
    pub fn push(&mut self, marker: Marker, piece: Piece<'a>) -> Result<(), Memory>
        requires { piece.start + length piece.text.now < 2 ^ 64 }
        ensures seen { OnOk result (record_seen self.new ≡ with_pieces (record_seen self.old) marker (piece_seen piece.entry ∷ [])) }
        ensures laid { (text : List ℕ) → StandsAt text piece.entry.start (piece_seen piece.entry) → AreLaidBefore text piece.entry.start self.old.features → OnOk result (AreLaidBefore text (end_byte piece.entry) self.new.features) }
    {
        match marker {
            Marker::Word => self.word = self.word.and_words(trim(piece.text)),
            Marker::Category => self.category = self.category.and_words(trim(piece.text)),
            Marker::Gloss => self.gloss.push(trim(piece.text))?,
            Marker::Features => self.features.push(piece)?,
            Marker::Other => {}
        }
        Ok(())
    }

    /// The word and the category, or why the record stands for no entry.
    fn texts(&self) -> Result<(&'a str, &'a str), LexiconCause>
        ensures { Closes (record_seen self.now) result }
    {
        let line = self.line;
        let word = match self.word {
            Words::Empty => return Err(LexiconCause::NoWord { line }),
            Words::One(word) => word,
            Words::Several => return Err(LexiconCause::SeveralWords { line }),
        };
        let Words::One(category) = self.category else {
            return Err(LexiconCause::NoCategory { line });
        };
        Ok((word, category))
    }

    /// The entry that the record stands for, whose texts are held by the symbols from then on. The pieces
    /// of its features stand in the text. Refused exactly where it stands for none: `NoWord`,
    /// `SeveralWords`, `NoCategory`, or the fault of its features, the first of these. Fails else for want
    /// of memory alone. The symbols keep what they hold, whatever the answer.
    pub fn entry(
        &self,
        alloc: Global,
        symbols: &mut Symbols,
        text: &str,
    ) -> Result<Entry, Fault<LexiconCause>>
        requires short { length text.now < 2 ^ 32 - 1 }
        requires laid { AreLaid text.now self.now.features }
        requires room { length symbols.old + most_texts (record_seen self.now) < 2 ^ 32 - 1 }
        ensures reads { IfOk result (λ entry. (text : Text) × (closed (record_seen self.now) ≡ Ok text) × IsEntryOf symbols.new entry text) }
        ensures refused { IfErr result (λ fault. FailsFor (closed (record_seen self.now)) fault) }
        ensures extends { Extends symbols.old symbols.new }
        ensures growth { length symbols.new ≤ length symbols.old + most_texts (record_seen self.now) }
    {
        let (word, category) = match self.texts() {
            Ok(texts) => texts,
            Err(cause) => return Err(Fault::Refused(cause)),
        };
        let word = symbols.intern(word)?;
        let category = symbols.intern(category)?;
        let gloss = gloss_id(symbols, self.gloss.as_str())?;
        let features = self.features.elements(alloc, symbols, text)?;
        Ok(Entry {
            line: self.line,
            word,
            category,
            gloss,
            features,
        })
    }
}
