//! The two files of a run, loaded and read.
ghost use Rattle.std.specs.Prelude.{◌≡◌, ◌+◌, ◌^◌, ◌-◌, ◌<◌, ◌≤◌, length, vec_len, IfOk, IfErr, IfSome, IfNone};
ghost use Rattle.std.specs.Bool.{OnFalse};
ghost use Rattle.patr_io.specs.Files.{HasFile, HasLongFile};
ghost use Rattle.patr_text.specs.Texts.{Extends};
ghost use Rattle.patr_shell.specs.Outcome.{CannotLoad, is_read_fault};
ghost use Rattle.patr_shell.specs.Loaded.{IsLoadFault, ReadsGrammar, IsGrammarFault, ReadsLexicon, IsLexiconFault};

use crate::refusal::{
    LONG_GRAMMAR, LONG_LEXICON, OpeningFault, Refusal, grammar_line, lexicon_line,
};
use crate::{GrammarTrouble, LexiconTrouble};
use patr_grammar::{Grammar, read_grammar};
use patr_io::{Shelf, ShelfFault};
use patr_lexicon::{Lexicon, read_lexicon};
use patr_text::{Fault, Symbols};
use std::alloc::Global;

const MAX_GRAMMAR: usize = 1 << 22;

const MAX_LEXICON: usize = 1 << 24;

/// The bytes of a file, or `None` where it has more than `most`. Fails where the shelf does or has no such file, and for
/// want of memory.
fn load<F: Shelf>(
    alloc: Global,
    shelf: &mut F,
    name: &str,
    most: usize,
) -> Result<Option<Vec<u8>>, OpeningFault>
    ensures some { IfOk result (λ loaded. IfSome loaded (λ bytes.
        HasFile (F.files shelf.old) name.now bytes.items × (vec_len bytes ≤ most))) }
    ensures none { IfOk result (λ loaded.
        IfNone loaded (HasLongFile (F.files shelf.old) name.now most)) }
    ensures fault { IfErr result IsLoadFault }
    ensures files { F.files shelf.new ≡ F.files shelf.old }
    ensures read { IfErr result (λ fault. fault ≡ OpeningFault.Read
        → CannotLoad (F.files shelf.old) (F.faults shelf.old) (F.faults shelf.new)
        (F.failed_name shelf.new) name.now) }
    ensures well { OnFalse (is_read_fault result) (F.faults shelf.new ≡ F.faults shelf.old) }
{
    match shelf.load(alloc, name, most) {
        Ok(bytes) => Ok(Some(bytes)),
        Err(ShelfFault::TooLong { .. }) => Ok(None),
        Err(ShelfFault::Failed | ShelfFault::Absent) => Err(OpeningFault::Read),
        Err(ShelfFault::Memory) => Err(OpeningFault::Memory),
    }
}

/// The grammar of a file, whose symbols are held from then on.
pub fn load_grammar<F: Shelf>(
    alloc: Global,
    shelf: &mut F,
    name: &str,
    symbols: &mut Symbols,
) -> Result<Grammar, OpeningFault>
    requires { length symbols.old + 4194304 < 2 ^ 32 - 1 }
    ensures grammar { IfOk result (λ grammar.
        ReadsGrammar (F.files shelf.old) name.now symbols.new grammar) }
    ensures fault { IfErr result (λ fault. IsGrammarFault (F.files shelf.old) name.now fault) }
    ensures extends { Extends symbols.old symbols.new }
    ensures growth { length symbols.new ≤ length symbols.old + 4194304 }
    ensures files { F.files shelf.new ≡ F.files shelf.old }
    ensures read { IfErr result (λ fault. fault ≡ OpeningFault.Read
        → CannotLoad (F.files shelf.old) (F.faults shelf.old) (F.faults shelf.new)
        (F.failed_name shelf.new) name.now) }
    ensures well { OnFalse (is_read_fault result) (F.faults shelf.new ≡ F.faults shelf.old) }
{
    let Some(bytes) = load(alloc, shelf, name, MAX_GRAMMAR)? else {
        let line = String::from_str(alloc, LONG_GRAMMAR)?;
        return Err(OpeningFault::Refused(Refusal::Grammar(GrammarTrouble::TooLong), line));
    };
    match read_grammar(alloc, symbols, &bytes) {
        Ok(grammar) => Ok(grammar),
        Err(Fault::Memory) => Err(OpeningFault::Memory),
        Err(Fault::Refused(cause)) => {
            let line = grammar_line(alloc, symbols, cause)?;
            let refusal = Refusal::Grammar(GrammarTrouble::Text(cause));
            Err(OpeningFault::Refused(refusal, line))
        }
    }
}

/// The lexicon of a file, whose symbols are held from then on.
pub fn load_lexicon<F: Shelf>(
    alloc: Global,
    shelf: &mut F,
    name: &str,
    symbols: &mut Symbols,
) -> Result<Lexicon, OpeningFault>
    requires { length symbols.old + 16777216 < 2 ^ 32 - 1 }
    ensures lexicon { IfOk result (λ lexicon.
        ReadsLexicon (F.files shelf.old) name.now symbols.new lexicon) }
    ensures fault { IfErr result (λ fault. IsLexiconFault (F.files shelf.old) name.now fault) }
    ensures extends { Extends symbols.old symbols.new }
    ensures read { IfErr result (λ fault. fault ≡ OpeningFault.Read
        → CannotLoad (F.files shelf.old) (F.faults shelf.old) (F.faults shelf.new)
        (F.failed_name shelf.new) name.now) }
    ensures well { OnFalse (is_read_fault result) (F.faults shelf.new ≡ F.faults shelf.old) }
{
    let Some(bytes) = load(alloc, shelf, name, MAX_LEXICON)? else {
        let line = String::from_str(alloc, LONG_LEXICON)?;
        return Err(OpeningFault::Refused(Refusal::Lexicon(LexiconTrouble::TooLong), line));
    };
    match read_lexicon(alloc, symbols, &bytes) {
        Ok(lexicon) => Ok(lexicon),
        Err(Fault::Memory) => Err(OpeningFault::Memory),
        Err(Fault::Refused(cause)) => {
            let line = lexicon_line(alloc, cause)?;
            let refusal = Refusal::Lexicon(LexiconTrouble::Text(cause));
            Err(OpeningFault::Refused(refusal, line))
        }
    }
}
