//! The reader of a lexicon.
//!
//! It goes from line to line with a state: the record that has begun, as far as it matters, and the marker of its last
//! field. Bad characters come before all other causes, so what is refused is gone through once more for them.
ghost use Rattle.std.specs.Prelude.{◌≡◌, ◌+◌, ◌-◌, ◌^◌, ◌<◌, ◌≤◌, List, length, Result, Ok, IfOk, IfErr, None, false};
ghost use Rattle.patr_model.specs.LexiconLines.{lines, fields_of, bad_token};
ghost use Rattle.patr_text.specs.declared.fault.Fault.TheVariants.{Refused};
ghost use Rattle.patr_model.specs.LexiconText.{BadToken as Bad, EntryText as Text, EntryFault, read_fields};
ghost use Rattle.patr_model.specs.Faults.{Misread};
ghost use Rattle.patr_model.specs.Built.{stage};
ghost use Rattle.patr_text.specs.Texts.{Extends};
ghost use Rattle.patr_lexicon.specs.Laid.{IsLaidBefore};
ghost use Rattle.patr_lexicon.specs.Reading.{StandsFor, IsRefusedFor, AreEntriesOf, fault_of};
ghost use Rattle.patr_lexicon.specs.Parts.{place_seen};
ghost use Rattle.patr_lexicon.specs.States.{FailsFor, ended_before, most_texts_of, IsKept};

use crate::lexicon::{Entry, Lexicon, LexiconCause};
use crate::line::{bad_in, bad_token, comments_after, cut_line, kind_of};
use crate::record::Record;
use crate::state::{State, Step};
use patr_text::{BadToken, Fault, Symbols};
use std::alloc::Global;

/// What the bytes of a lexicon stand for, with the numbers that the table gives to its texts.
///
/// It is refused for the first of these that there is: it is not UTF-8; a bad character; text before the
/// first `\w`; the first record that stands for no entry, by its word, its category or its features. Other
/// failures are for want of memory. The table keeps the texts that it holds, whatever the answer.
pub fn read_lexicon(
    alloc: Global,
    symbols: &mut Symbols,
    bytes: &[u8],
) -> Result<Lexicon, Fault<LexiconCause>>
    requires { length symbols.old + length bytes.now < 2 ^ 32 - 1 }
    ensures reads { IfOk result (λ lexicon. StandsFor symbols.new bytes.now lexicon) }
    ensures refused { IfErr result (λ fault. IsRefusedFor bytes.now fault) }
    ensures extends { Extends symbols.old symbols.new }
    ensures growth { length symbols.new ≤ length symbols.old + length bytes.now }
    ensures few { IfOk result (λ lexicon. length lexicon ≤ length bytes.now) }
{
    match std::str::from_utf8(bytes) {
        Ok(text) => read_text(alloc, symbols, text),
        Err(error) => Err(Fault::Refused(LexiconCause::NotUtf8 {
            at: error.valid_up_to() as u64,
        })),
    }
}

/// What a whole text stands for.
fn read_text(
    alloc: Global,
    symbols: &mut Symbols,
    text: &str,
) -> Result<Lexicon, Fault<LexiconCause>>
    requires { length symbols.old + length text.now < 2 ^ 32 - 1 }
    ensures reads { IfOk result (λ lexicon. StandsFor symbols.new text.now lexicon) }
    ensures refused { IfErr result (λ fault. IsRefusedFor text.now fault) }
    ensures extends { Extends symbols.old symbols.new }
    ensures growth { length symbols.new ≤ length symbols.old + length text.now }
    ensures few { IfOk result (λ lexicon. length lexicon ≤ length text.now) }
{
    match read_records(alloc, symbols, text) {
        Ok(entries) => Ok(Lexicon::new(alloc, entries)?),
        Err(Fault::Memory) => Err(Fault::Memory),
        Err(Fault::Refused(cause)) => Err(Fault::Refused(first_cause(text, cause))),
    }
}

/// The cause of a bad character.
fn cause_of(bad: BadToken) -> LexiconCause
    ensures { fault_of result ≡ Misread (Bad (place_seen bad)) }
{
    let BadToken { line, column } = bad;
    LexiconCause::BadToken { line, column }
}

/// Why a text is refused, of which this is a cause if it has no bad character.
fn first_cause(text: &str, cause: LexiconCause) -> LexiconCause
    requires short { length text.now < 2 ^ 32 - 1 }
    requires cause { bad_token false (lines text.now) ≡ None → FailsFor (read_fields stage (fields_of (lines text.now))) (Refused cause) }
    ensures { IsRefusedFor text.now (Refused result) }
{
    match bad_token(text) {
        Some(bad) => cause_of(bad),
        None => cause,
    }
}

/// The entries of a text. Where it has a bad character it is refused, for no matter what cause.
fn read_records(
    alloc: Global,
    symbols: &mut Symbols,
    text: &str,
) -> Result<Vec<Entry>, Fault<LexiconCause>>
    requires { length symbols.old + length text.now < 2 ^ 32 - 1 }
    ensures reads { IfOk result (λ entries. (texts : List Text) × (read_fields stage (fields_of (lines text.now)) ≡ Ok texts) × AreEntriesOf symbols.new entries.items texts) }
    ensures clean { IfOk result (λ _. bad_token false (lines text.now) ≡ None) }
    ensures refused { IfErr result (λ fault. bad_token false (lines text.now) ≡ None → FailsFor (read_fields stage (fields_of (lines text.now))) fault) }
    ensures extends { Extends symbols.old symbols.new }
    ensures growth { length symbols.new ≤ length symbols.old + length text.now }
    ensures few { IfOk result (λ entries. length entries.items ≤ length text.now) }
{
    let mut entries = Vec::new(alloc);
    let mut state = State::Start;
    let mut comments = false;
    let mut rest = text;
    let mut start = 0;
    let mut number = 1;
    'lines: loop {
        let (line, behind) = cut_line(rest);
        let kind = kind_of(line);
        if let Some(bad) = bad_in(comments, number, line, kind) {
            return Err(Fault::Refused(cause_of(bad)));
        }
        let Step { state: next, ended } = state.line(alloc, start, number, line, kind)?;
        keep(alloc, &mut entries, symbols, text, ended)?;
        let Some(behind) = behind else {
            keep(alloc, &mut entries, symbols, text, next.record())?;
            return Ok(entries);
        };
        state = next;
        comments = comments_after(comments, kind);
        rest = behind;
        start += line.len() + 1;
        number += 1;
    }
}

/// Puts the entry of a record that has ended behind the others. The record is one of the text.
fn keep(
    alloc: Global,
    entries: &mut Vec<Entry>,
    symbols: &mut Symbols,
    text: &str,
    ended: Option<Record<'_>>,
) -> Result<(), Fault<LexiconCause>>
    requires short { length text.now < 2 ^ 32 - 1 }
    requires laid { IsLaidBefore text.now (length text.now) ended }
    requires room { length symbols.old + most_texts_of ended < 2 ^ 32 - 1 }
    ensures kept { IfOk result (λ _. IsKept symbols.new entries.old.items entries.new.items ended.entry) }
    ensures refused { IfErr result (λ fault. (rest : Result (List Text) EntryFault) → FailsFor (ended_before ended.entry rest) fault) }
    ensures extends { Extends symbols.old symbols.new }
    ensures growth { length symbols.new ≤ length symbols.old + most_texts_of ended.entry }
{
    let Some(record) = ended else {
        return Ok(());
    };
    let entry = record.entry(alloc, symbols, text)?;
    entries.push(entry)?;
    Ok(())
}
