//! Why a run ends before its session.
ghost use Rattle.std.specs.Prelude.{◌≡◌, ℕ, List, [], ◌∷◌, ◌++◌, IfOk, codes, decimal, string_bytes};
ghost use Rattle.patr_model.specs.Faults.{of_file, at_line, at_place};
ghost use Rattle.patr_model.specs.Agreeing.{SameExpandFault};
ghost use Rattle.patr_model.specs.Build.{ExpandFault, expand_fault_line};
ghost use Rattle.patr_expand.specs.Seen.{cause_seen};
ghost use Rattle.patr_model.specs.GrammarText.{GrammarFault, grammar_fault_line, what_text};
ghost use Rattle.patr_model.specs.LexiconText.{lexicon_fault_line};
ghost use Rattle.patr_grammar.specs.Reading.{IsFault, IsText};
ghost use Rattle.patr_lexicon.specs.Reading.{fault_of};
ghost use Rattle.patr_shell.specs.Outcome.{status_of};
ghost use Rattle.patr_shell.specs.declared.refusal.OpeningFault.TheVariants.{Memory as OutOfMemory};

use crate::{GrammarTrouble, LexiconTrouble, Memory, Status};
use patr_expand::ExpandCause;
use patr_grammar::{GrammarCause, What, expected_text};
use patr_lexicon::LexiconCause;
use patr_text::{Id, Symbols};
use std::alloc::{AllocError, Global};

pub(crate) const USAGE: &str = "usage: patr GRAMMAR LEXICON [--workers N] [--limit N]\n";

pub(crate) const LONG_GRAMMAR: &str = "error: grammar: more than 4194304 bytes\n";

pub(crate) const LONG_LEXICON: &str = "error: lexicon: more than 16777216 bytes\n";

/// What is refused before a session, and why.
#[derive(Clone, Copy, Debug, PartialEq, Eq)]
pub enum Refusal {
    Words,
    Grammar(GrammarTrouble),
    Lexicon(LexiconTrouble),
}

impl From<Refusal> for Status {
    ghost from_gives = { λ refusal status. status ≡ status_of refusal };

    fn from(refusal: Refusal) -> Self {
        match refusal {
            Refusal::Words => Status::BadWords,
            Refusal::Grammar(trouble) => Status::BadGrammar(trouble),
            Refusal::Lexicon(trouble) => Status::BadLexicon(trouble),
        }
    }
}

/// Why a run ends before its session.
#[derive(Debug, Drop)]
pub enum OpeningFault {
    /// The words or a file are refused, and the line that tells why, with its LF.
    Refused(Refusal, String),
    /// The shelf failed, or has no file of this name.
    Read,
    Memory,
}

impl From<AllocError> for OpeningFault {
    ghost from_gives = { λ _ fault. fault ≡ OutOfMemory };

    fn from(_: AllocError) -> Self {
        OpeningFault::Memory
    }
}

/// The line of which this is the beginning, up to what is wrong.
fn line_on(begun: String, what: &str) -> Result<String, Memory>
    ensures { IfOk result (λ text. string_bytes text
        ≡ string_bytes begun ++ codes ": " ++ what.now ++ 10 ∷ []) }
{
    let mut text = begun;
    text.push_str(": ")?;
    text.push_str(what)?;
    text.push('\n')?;
    Ok(text)
}

/// The line on a place of this file, `grammar` or `lexicon`.
fn line_at_place(
    alloc: Global,
    file: &'static str,
    line: u32,
    column: u32,
    what: &str,
) -> Result<String, Memory>
    ensures { IfOk result (λ text. string_bytes text
        ≡ at_place file.now (record { line = line; column = column }) what.now) }
{
    let mut begun = format!(in alloc; "error: {file} {line}")?;
    let column = format!(in alloc; ":{column}")?;
    begun.push_str(column.as_str())?;
    line_on(begun, what)
}

/// The line on a place of this file where something else is expected.
fn expected_line(
    alloc: Global,
    file: &'static str,
    line: u32,
    column: u32,
    what: &What,
) -> Result<String, Memory>
    ensures { IfOk result (λ text. string_bytes text ≡ at_place file.now
        (record { line = line; column = column }) (codes "expected " ++ what_text what.now)) }
{
    let expected = format!(in alloc; "expected {}", expected_text(what))?;
    line_at_place(alloc, file, line, column, expected.as_str())
}

/// The line on bytes of this file that are no text.
fn not_utf8_line(alloc: Global, file: &'static str, at: u64) -> Result<String, Memory>
    ensures { IfOk result (λ text. string_bytes text
        ≡ of_file file.now (codes "not UTF-8 at byte " ++ decimal at)) }
{
    let begun = format!(in alloc; "error: {file}")?;
    let what = format!(in alloc; "not UTF-8 at byte {at}")?;
    line_on(begun, what.as_str())
}

/// The line on a place of this file where a name is what this says.
fn name_line(
    alloc: Global,
    symbols: &Symbols,
    file: &'static str,
    line: u32,
    column: u32,
    what: &'static str,
    name: Id,
) -> Result<String, Memory>
    requires { (text : List ℕ) × IsText symbols.now name text }
    ensures { (name_text : List ℕ) → IsText symbols.now name name_text → IfOk result (λ text. string_bytes text
        ≡ at_place file.now (record { line = line; column = column }) (what.now ++ name_text)) }
{
    let mut told = String::from_str(alloc, what)?;
    told.push_str(symbols.text(name))?;
    line_at_place(alloc, file, line, column, told.as_str())
}

/// The line that refuses a grammar's text, whose names have these symbols.
pub fn grammar_line(alloc: Global, symbols: &Symbols, cause: GrammarCause) -> Result<String, Memory>
    requires { (f : GrammarFault) × IsFault symbols.now cause f }
    ensures { (f : GrammarFault) → IsFault symbols.now cause f
        → IfOk result (λ text. string_bytes text ≡ grammar_fault_line f) }
{
    match cause {
        GrammarCause::NotUtf8 { at } => not_utf8_line(alloc, "grammar", at),
        GrammarCause::BadToken { line, column } => {
            line_at_place(alloc, "grammar", line, column, "bad character")
        }
        GrammarCause::Expected { line, column, what } => {
            expected_line(alloc, "grammar", line, column, &what)
        }
        GrammarCause::NotAConstituent { line, column } => {
            line_at_place(alloc, "grammar", line, column, "not a constituent")
        }
        GrammarCause::TwiceNamed { line, column, name } => name_line(
            alloc,
            symbols,
            "grammar",
            line,
            column,
            "name given twice: ",
            name,
        ),
        GrammarCause::PathTooLong { line, column } => {
            line_at_place(alloc, "grammar", line, column, "path too long")
        }
        GrammarCause::TooManySymbols { line, column } => {
            line_at_place(alloc, "grammar", line, column, "too many symbols")
        }
        GrammarCause::NoRules => String::from_str(alloc, "error: grammar: no rules\n"),
        GrammarCause::TooDeep { line, column } => {
            line_at_place(alloc, "grammar", line, column, "too deep")
        }
        GrammarCause::LaterForm { line, column } => {
            line_at_place(alloc, "grammar", line, column, "not built yet")
        }
    }
}

/// The line that refuses a lexicon's text.
pub fn lexicon_line(alloc: Global, cause: LexiconCause) -> Result<String, Memory>
    ensures { IfOk result (λ text. string_bytes text ≡ lexicon_fault_line (fault_of cause)) }
{
    match cause {
        LexiconCause::NotUtf8 { at } => not_utf8_line(alloc, "lexicon", at),
        LexiconCause::BadToken { line, column } => {
            line_at_place(alloc, "lexicon", line, column, "bad character")
        }
        LexiconCause::NoWord { line } => line_at(alloc, "lexicon", line, "no word"),
        LexiconCause::SeveralWords { line } => line_at(alloc, "lexicon", line, "several words"),
        LexiconCause::NoCategory { line } => line_at(alloc, "lexicon", line, "no category"),
        LexiconCause::PathTooLong { line, column } => {
            line_at_place(alloc, "lexicon", line, column, "path too long")
        }
        LexiconCause::TooDeep { line, column } => {
            line_at_place(alloc, "lexicon", line, column, "too deep")
        }
        LexiconCause::Expected { line, column, what } => {
            expected_line(alloc, "lexicon", line, column, &what)
        }
    }
}

/// The line on a line of this file.
fn line_at(alloc: Global, file: &'static str, line: u32, what: &str) -> Result<String, Memory>
    ensures { IfOk result (λ text. string_bytes text ≡ at_line file.now line what.now) }
{
    let begun = format!(in alloc; "error: {file} {line}")?;
    line_on(begun, what)
}

/// The line that refuses what stands at a line of this file and has more than so many of these.
fn size_line(
    alloc: Global,
    file: &'static str,
    line: u32,
    most: &'static str,
    count: u64,
) -> Result<String, Memory>
    ensures { IfOk result (λ text. string_bytes text
        ≡ at_line file.now line (most.now ++ decimal count ++ codes ")")) }
{
    let mut what = String::from_str(alloc, most)?;
    let count = format!(in alloc; "{count})")?;
    what.push_str(count.as_str())?;
    line_at(alloc, file, line, what.as_str())
}

/// The line that refuses a template, a rule or an entry of this file, whose names have these symbols.
pub fn expand_line(
    alloc: Global,
    symbols: &Symbols,
    file: &'static str,
    cause: ExpandCause,
) -> Result<String, Memory>
    requires { (f : ExpandFault (List ℕ)) × SameExpandFault (IsText symbols.now) (cause_seen cause) f }
    ensures { (f : ExpandFault (List ℕ)) → SameExpandFault (IsText symbols.now) (cause_seen cause) f
        → IfOk result (λ text. string_bytes text ≡ expand_fault_line file.now f) }
{
    match cause {
        ExpandCause::UnknownName { line, column, name } => {
            name_line(alloc, symbols, file, line, column, "unknown name: ", name)
        }
        ExpandCause::TooManyVariants { line, count } => {
            size_line(alloc, file, line, "more than 256 variants (", count)
        }
        ExpandCause::TooManyEquations { line, count } => {
            size_line(alloc, file, line, "more than 1024 equations (", count)
        }
    }
}
