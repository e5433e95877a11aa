//! How far a lexicon is read, and what a line makes of that.
ghost use Rattle.std.specs.Prelude.{◌≡◌, ◌+◌, ◌-◌, ◌^◌, ◌<◌, ◌≤◌, ◌∷◌, [], List, ℕ, length, IfOk};
ghost use Rattle.patr_model.specs.declared.field.Marker.TheVariants as markers;
ghost use Rattle.patr_model.specs.LexiconLines.{Fields, kind, line_at, line_before};
ghost use Rattle.patr_lexicon.specs.Laid.{StandsAt, end_byte, IsLaidBefore};
ghost use Rattle.patr_lexicon.specs.Parts.{piece_seen, IsCut};
ghost use Rattle.patr_lexicon.specs.States.{Follows, goes_on, ended_before, record_of, most_texts_of};

use crate::lexicon::LexiconCause;
use crate::line::Piece;
use crate::record::Record;
use patr_model::{LexiconLine, Marker};
use patr_text::Fault;
use std::alloc::Global;

/// How far a lexicon is read.
#[derive(Drop)]
pub enum State<'a> {
    /// No field has begun.
    Start,
    /// No record has begun, and the field that has is ignored.
    Skipped,
    /// The record that has begun, and the marker of its last field.
    Within(Marker, Record<'a>),
}

/// What a line makes of a state.
#[derive(Drop)]
pub struct Step<'a> {
    /// The state behind the line.
    pub state: State<'a>,
    /// The record that ends before the line.
    pub ended: Option<Record<'a>>,
}

impl<'a> State<'a> {
    /// The record that has begun.
    pub fn record(self) -> Option<Record<'a>>
        ensures { result ≡ record_of self.entry }
    {
        match self {
            State::Start | State::Skipped => None,
            State::Within(_, record) => Some(record),
        }
    }

    /// The state behind a line that belongs to the field before it.
    fn text(self, piece: Piece<'a>) -> Result<State<'a>, Fault<LexiconCause>>
        requires fits { piece.start + length piece.text.now < 2 ^ 64 }
        requires some { 0 < length piece.text.now }
        ensures reads { (fs : Fields) → Follows (goes_on self.entry (record { pieces = piece_seen piece.entry ∷ fs.pieces; fields = fs.fields })) result (λ s. goes_on s fs) }
        ensures most_texts { IfOk result (λ s. most_texts_of (record_of s) ≤ most_texts_of (record_of self.entry) + length piece.entry.text.now) }
        ensures laid { (text : List ℕ) → StandsAt text piece.entry.start (piece_seen piece.entry) → IsLaidBefore text piece.entry.start (record_of self.entry) → IfOk result (λ s. IsLaidBefore text (end_byte piece.entry) (record_of s)) }
    {
        match self {
            State::Start => Err(Fault::Refused(LexiconCause::NoWord { line: piece.line })),
            State::Skipped => Ok(State::Skipped),
            State::Within(field, mut record) => {
                record.push(field, piece)?;
                Ok(State::Within(field, record))
            }
        }
    }

    /// The state behind a line that begins a field other than `\w`.
    fn field(
        self,
        alloc: Global,
        marker: Marker,
        piece: Piece<'a>,
    ) -> Result<State<'a>, Fault<LexiconCause>>
        requires marker { marker ≡ markers.Word → ⊥ }
        requires fits { piece.start + length piece.text.now < 2 ^ 64 }
        ensures reads { (fs : Fields) → Follows (goes_on self.entry (record { pieces = []; fields = record { marker = marker; line = piece.entry.line; pieces = piece_seen piece.entry ∷ fs.pieces } ∷ fs.fields })) result (λ s. goes_on s fs) }
        ensures most_texts { IfOk result (λ s. most_texts_of (record_of s) ≤ most_texts_of (record_of self.entry) + (1 + length piece.entry.text.now)) }
        ensures laid { (text : List ℕ) → StandsAt text piece.entry.start (piece_seen piece.entry) → IsLaidBefore text piece.entry.start (record_of self.entry) → IfOk result (λ s. IsLaidBefore text (end_byte piece.entry) (record_of s)) }
    {
        match self {
            State::Within(_, mut record) => {
                record.begin(alloc, marker);
                record.push(marker, piece)?;
                Ok(State::Within(marker, record))
            }
            State::Start | State::Skipped => match marker {
                Marker::Other => Ok(State::Skipped),
                _ => Err(Fault::Refused(LexiconCause::NoWord { line: piece.line })),
            },
        }
    }

    /// What a line that begins a field makes of a state.
    fn begins(
        self,
        alloc: Global,
        marker: Marker,
        piece: Piece<'a>,
    ) -> Result<Step<'a>, Fault<LexiconCause>>
        requires fits { piece.start + length piece.text.now < 2 ^ 64 }
        ensures reads { (fs : Fields) → Follows (goes_on self.entry (record { pieces = []; fields = record { marker = marker; line = piece.entry.line; pieces = piece_seen piece.entry ∷ fs.pieces } ∷ fs.fields })) result (λ s. ended_before s.ended (goes_on s.state fs)) }
        ensures most_texts { IfOk result (λ s. most_texts_of s.ended + most_texts_of (record_of s.state) ≤ most_texts_of (record_of self.entry) + (1 + length piece.entry.text.now)) }
        ensures laid { (text : List ℕ) → StandsAt text piece.entry.start (piece_seen piece.entry) → IsLaidBefore text piece.entry.start (record_of self.entry) → IfOk result (λ s. IsLaidBefore text (end_byte piece.entry) s.ended × IsLaidBefore text (end_byte piece.entry) (record_of s.state)) }
    {
        match marker {
            Marker::Word => Ok(Step {
                state: State::Within(marker, Record::new(alloc, piece)),
                ended: self.record(),
            }),
            _ => Ok(Step {
                state: self.field(alloc, marker, piece)?,
                ended: None,
            }),
        }
    }

    /// What a line, without its LF, makes of a state. The line begins at byte `start` of the whole text,
    /// and is of this kind.
    /// `NoWord` is answered exactly where the line is text before the first `\w`. Fails else for want of
    /// memory alone.
    pub fn line(
        self,
        alloc: Global,
        start: usize,
        number: u32,
        line: &'a str,
        of: LexiconLine,
    ) -> Result<Step<'a>, Fault<LexiconCause>>
        requires short { start + length line.now < 2 ^ 32 - 1 }
        requires kind { of ≡ kind line.now }
        requires cut { IsCut line.now of }
        ensures reads { (fs : Fields) → Follows (goes_on self.entry (line_before (line_at number line.now) (kind line.now) fs)) result (λ s. ended_before s.ended (goes_on s.state fs)) }
        ensures most_texts { IfOk result (λ s. most_texts_of s.ended + most_texts_of (record_of s.state) ≤ most_texts_of (record_of self.entry) + length line.now) }
        ensures laid { (text : List ℕ) → StandsAt text start (line_at number line.now) → IsLaidBefore text start (record_of self.entry) → IfOk result (λ s. IsLaidBefore text (start + length line.now) s.ended × IsLaidBefore text (start + length line.now) (record_of s.state)) }
    {
        match of {
            LexiconLine::Ignored => Ok(Step {
                state: self,
                ended: None,
            }),
            LexiconLine::Begins(marker, len) => {
                let piece = Piece {
                    start: start + len,
                    line: number,
                    column: 1 + len as u32,
                    text: &line[len..],
                };
                self.begins(alloc, marker, piece)
            }
            LexiconLine::Text => {
                let piece = Piece {
                    start,
                    line: number,
                    column: 1,
                    text: line,
                };
                Ok(Step {
                    state: self.text(piece)?,
                    ended: None,
                })
            }
        }
    }
}
