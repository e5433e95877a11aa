//! What a run begins with: the words of the command line, and the two files that they name.
ghost use Rattle.std.specs.Prelude.{◌≡◌, ℕ, List, map, string_bytes, IfOk, IfErr, IfSome};
ghost use Rattle.std.specs.Bool.{OnFalse};
ghost use Rattle.patr_model.specs.Table.{IsTable};
ghost use Rattle.patr_grammar.specs.Reading.{StandsFor};
ghost use Rattle.patr_lexicon.specs.Reading.{StandsFor as StandForEntries};
ghost use Rattle.patr_shell.specs.Spoken.{HasLimit};
ghost use Rattle.patr_shell.specs.Loaded.{IsBuiltOf, IsBuildFault};
ghost use Rattle.patr_shell.specs.Outcome.{IsOpened, HaveSession, IsFaultOf, LooksAt, CannotLoad, is_read_fault};

use crate::command_line::read_setup;
use crate::language::Language;
use crate::loading::{load_grammar, load_lexicon};
use crate::refusal::{OpeningFault, Refusal, USAGE, expand_line};
use crate::state::State;
use crate::{GrammarTrouble, LexiconTrouble};
use patr_grammar::Grammar;
use patr_io::Shelf;
use patr_lexicon::Lexicon;
use patr_library::{BuildFault, Library};
use patr_text::Symbols;
use std::alloc::Global;

/// A language, and the state in which a session over it begins.
#[derive(Drop)]
pub struct Opened {
    pub language: Language,
    pub state: State,
}

/// The language of a grammar and a lexicon with these symbols.
fn build(
    alloc: Global,
    symbols: Symbols,
    grammar: Grammar,
    lexicon: Lexicon,
) -> Result<Language, OpeningFault>
    requires grammar { (bytes : List ℕ) × StandsFor symbols bytes grammar }
    requires lexicon { (bytes : List ℕ) × StandForEntries symbols bytes lexicon }
    requires table { IsTable symbols }
    ensures built { IfOk result (λ l. IsBuiltOf symbols grammar lexicon l) }
    ensures fault { IfErr result (λ fault. IsBuildFault symbols grammar lexicon fault) }
{
    // The table has the texts that each begins with: `len` says so.
    symbols.len();
    match Library::build(alloc, grammar, lexicon) {
        Ok(library) => Ok(Language::new(symbols, library)),
        Err(BuildFault::Memory) => Err(OpeningFault::Memory),
        Err(BuildFault::InGrammar(cause)) => {
            let line = expand_line(alloc, &symbols, "grammar", cause)?;
            let refusal = Refusal::Grammar(GrammarTrouble::Expand(cause));
            Err(OpeningFault::Refused(refusal, line))
        }
        Err(BuildFault::InLexicon(cause)) => {
            let line = expand_line(alloc, &symbols, "lexicon", cause)?;
            let refusal = Refusal::Lexicon(LexiconTrouble::Expand(cause));
            Err(OpeningFault::Refused(refusal, line))
        }
    }
}

/// Reads the two files that the words name, and builds the language that they stand for.
pub fn open<F: Shelf>(
    alloc: Global,
    words: &[String],
    shelf: &mut F,
) -> Result<Opened, OpeningFault>
    ensures opened { IfOk result (λ o. IfSome (F.files shelf.old) (λ files.
        IsOpened (map string_bytes words.now) files o.language o.state)) }
    ensures found { IfOk result (λ _.
        HaveSession (map string_bytes words.now) (F.files shelf.old)) }
    ensures table { IfOk result (λ o. IsTable o.language.texts) }
    ensures limit { IfOk result (λ o. HasLimit o.state) }
    ensures fault { IfErr result (λ fault.
        IsFaultOf (map string_bytes words.now) (F.files shelf.old) fault) }
    ensures read { IfErr result (λ fault. fault ≡ OpeningFault.Read → (name : List ℕ)
        × LooksAt (map string_bytes words.now) (F.files shelf.old) name
        × CannotLoad (F.files shelf.old) (F.faults shelf.old) (F.faults shelf.new)
        (F.failed_name shelf.new) name) }
    ensures well { OnFalse (is_read_fault result) (F.faults shelf.new ≡ F.faults shelf.old) }
{
    let Some(setup) = read_setup(alloc, words)? else {
        let line = String::from_str(alloc, USAGE)?;
        return Err(OpeningFault::Refused(Refusal::Words, line));
    };
    let mut symbols = Symbols::new(alloc)?;
    let grammar = load_grammar(alloc, shelf, setup.grammar, &mut symbols)?;
    let lexicon = load_lexicon(alloc, shelf, setup.lexicon, &mut symbols)?;
    // It has the texts that each begins with, and no text stands twice: `len` says so.
    symbols.len();
    let language = build(alloc, symbols, grammar, lexicon)?;
    Ok(Opened {
        language,
        state: State::first(setup.limit),
    })
}
