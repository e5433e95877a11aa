//! The features of a record: pieces of lines, whose tokens are cut from the whole text, each once, when the record ends.
ghost use Rattle.std.specs.Prelude.{◌≡◌, ◌+◌, ◌-◌, ◌^◌, ◌<◌, ◌≤◌, ◌++◌, ◌∷◌, [], length, IfOk, IfErr, OnOk, Ok};
ghost use Rattle.std.specs.List.{All};
ghost use Rattle.patr_model.specs.Built.{stage};
ghost use Rattle.patr_model.specs.LexiconText.{features_of};
ghost use Rattle.patr_text.specs.Texts.{Extends};
ghost use Rattle.patr_lexicon.specs.Laid.{StandsAt, end_byte, AreLaid};
ghost use Rattle.patr_lexicon.specs.Parts.{piece_seen, pieces_seen};
ghost use Rattle.patr_lexicon.specs.Records.{bytes_in};
ghost use Rattle.patr_lexicon.specs.Reading.{AreFeaturesOf};
ghost use Rattle.patr_lexicon.specs.States.{FailsFor, RefusesSome, TellsOf};
ghost use Rattle.patr_lexicon.specs.Cut.{AreCutFrom};

use crate::lexicon::LexiconCause;
use crate::line::Piece;
use patr_grammar::{Element, GrammarCause, read_elements};
use patr_text::{Fault, Memory, Symbols, Token, tokens};
use std::alloc::{AllocError, Global};

/// The tokens of a piece of a text. A bad character was refused before.
fn tokens_of(alloc: Global, text: &str, piece: Piece<'_>) -> Result<Vec<Token>, Memory>
    requires short { length text.now < 2 ^ 32 - 1 }
    requires stands { StandsAt text.now piece.start (piece_seen piece) }
    ensures { IfOk result (λ tokens. AreCutFrom text.now (piece_seen piece.entry ∷ []) tokens.items) }
{
    let end = piece.start + piece.text.len();
    match tokens(alloc, text, piece.start, end, piece.line, piece.column) {
        Ok(tokens) => Ok(tokens),
        Err(Fault::Refused(_)) => Ok(Vec::new(alloc)),
        Err(Fault::Memory) => Err(AllocError),
    }
}

/// The cause of features that are refused.
fn cause_of(cause: GrammarCause) -> LexiconCause
    requires { RefusesSome cause }
    ensures { TellsOf cause result }
{
    match cause {
        GrammarCause::Expected { line, column, what } => {
            LexiconCause::Expected { line, column, what }
        }
        GrammarCause::PathTooLong { line, column } => LexiconCause::PathTooLong { line, column },
        GrammarCause::TooDeep { line, column } => LexiconCause::TooDeep { line, column },
        _ => unreachable!(),
    }
}

/// The features of a record while it is read.
#[derive(Drop)]
pub struct Features<'a> {
    /// The pieces of its fields of features, in order.
    pieces: Vec<Piece<'a>>,
    /// Where the last of them ends, in bytes of the whole text: 0 where there is none.
    end: usize,
}

impl<'a> Features<'a> {
    /// No features.
    pub fn new(alloc: Global) -> Features<'a>
        ensures pieces { result.pieces.items ≡ [] }
        ensures end { result.end ≡ 0 }
    {
        Features {
            pieces: Vec::new(alloc),
            end: 0,
        }
    }

    /// Puts one more piece behind the others. Fails for want of memory alone.
    pub fn push(&mut self, piece: Piece<'a>) -> Result<(), Memory>
        requires { piece.start + length piece.text.now < 2 ^ 64 }
        ensures pieces { OnOk result (self.new.pieces.items ≡ self.old.pieces.items ++ piece.entry ∷ []) }
        ensures end { OnOk result (self.new.end ≡ end_byte piece.entry) }
    {
        self.pieces.push(piece)?;
        self.end = piece.start + piece.text.len();
        Ok(())
    }

    /// The tokens of all pieces, which stand in a text.
    fn tokens(&self, alloc: Global, text: &str) -> Result<Vec<Token>, Memory>
        requires short { length text.now < 2 ^ 32 - 1 }
        requires stand { All (λ p. StandsAt text.now p.start (piece_seen p)) self.now.pieces.items }
        ensures { IfOk result (λ tokens. AreCutFrom text.now (pieces_seen self.now.pieces.items) tokens.items) }
    {
        if let [only] = self.pieces.as_slice() {
            return tokens_of(alloc, text, *only);
        }
        let mut all = Vec::new(alloc);
        for piece in &self.pieces {
            let mut tokens = tokens_of(alloc, text, *piece)?;
            all.append(&mut tokens)?;
        }
        Ok(all)
    }

    /// What the features stand for, whose words are held by the symbols from then on. Refused exactly
    /// where they stand for none: `Expected`, `PathTooLong` or `TooDeep`. Fails else for want of memory
    /// alone. The symbols keep what they hold, whatever the answer.
    pub fn elements(
        &self,
        alloc: Global,
        symbols: &mut Symbols,
        text: &str,
    ) -> Result<Vec<Element>, Fault<LexiconCause>>
        requires short { length text.now < 2 ^ 32 - 1 }
        requires laid { AreLaid text.now self.now }
        requires room { length symbols.old + bytes_in (pieces_seen self.now.pieces.items) < 2 ^ 32 - 1 }
        ensures reads { IfOk result (λ elements. AreFeaturesOf symbols.new elements.items (features_of stage (pieces_seen self.now.pieces.items))) }
        ensures refused { IfErr result (λ fault. FailsFor (features_of stage (pieces_seen self.now.pieces.items)) fault) }
        ensures extends { Extends symbols.old symbols.new }
        ensures growth { length symbols.new ≤ length symbols.old + bytes_in (pieces_seen self.now.pieces.items) }
    {
        // Features are refused at their end where the last piece ends.
        let front = &text[..self.end];
        let tokens = self.tokens(alloc, front)?;
        match read_elements(alloc, symbols, front, &tokens) {
            Ok(elements) => Ok(elements),
            Err(Fault::Memory) => Err(Fault::Memory),
            Err(Fault::Refused(cause)) => Err(Fault::Refused(cause_of(cause))),
        }
    }
}
