//! Reading a grammar.
ghost use Rattle.std.specs.Prelude.{◌≡◌, ◌+◌, ◌-◌, ◌^◌, ◌<◌, ◌≤◌, length, IfOk, IfErr};
ghost use Rattle.std.specs.List.{All};
ghost use Rattle.patr_model.specs.Tokens.{after, start_place};
ghost use Rattle.patr_model.specs.Built.{stage};
ghost use Rattle.patr_model.specs.Productions.{grammar, elements};
ghost use Rattle.patr_text.specs.Texts.{Extends};
ghost use Rattle.patr_grammar.specs.Defaults.{cat_number};
ghost use Rattle.patr_grammar.specs.Reading.{StandsFor, IsRefusedFor};
ghost use Rattle.patr_grammar.specs.Features.{StandForFeatures, AreRefusedFor};
ghost use Rattle.patr_grammar.specs.Views.{IsSpelled, bytes_of, by_id, cause_at, AnswersClauses, Answers, AnswersFeatures};

use crate::clauses::Clauses;
use crate::grammar::{Element, Grammar, GrammarCause};
use crate::lexeme::Lexeme;
use crate::numbering::lexemes;
use crate::place::{Place, place_of};
use crate::reader::{Reader, Refusal};
use patr_text::{BadToken, Fault, Symbols, Token, tokens};
use std::alloc::Global;

/// The cause of a refusal at a place.
fn cause_at(refusal: Refusal, place: Place) -> GrammarCause
    ensures { result ≡ cause_at refusal place }
{
    let Place { line, column } = place;
    match refusal {
        Refusal::Expected(what) => GrammarCause::Expected { line, column, what },
        Refusal::NotAConstituent => GrammarCause::NotAConstituent { line, column },
        Refusal::TwiceNamed(name) => GrammarCause::TwiceNamed { line, column, name },
        Refusal::PathTooLong => GrammarCause::PathTooLong { line, column },
        Refusal::TooManySymbols => GrammarCause::TooManySymbols { line, column },
        Refusal::TooDeep => GrammarCause::TooDeep { line, column },
        Refusal::LaterForm => GrammarCause::LaterForm { line, column },
    }
}

/// The grammar of these clauses, whose start symbol is the first rule's category. `Fault::Refused`
/// says that there is no rule.
fn grammar_of(alloc: Global, clauses: Clauses) -> Result<Grammar, Fault<GrammarCause>>
    requires { length clauses.rules.items < 2 ^ 32 }
    ensures answers { AnswersClauses clauses result }
    ensures few { IfOk result (λ g. length g.rules.items ≤ length clauses.rules.items) }
{
    let Clauses {
        rules,
        templates,
        ..
    } = clauses;
    if rules.is_empty() {
        return Err(Fault::Refused(GrammarCause::NoRules));
    }
    let category = vec![in alloc; Symbols::CAT]?;
    let restrictor = vec![in alloc; category]?;
    Ok(Grammar {
        start: rules[0].mother.category,
        rules,
        templates,
        lexical_rules: Vec::new(alloc),
        restrictor,
        order: Vec::new(alloc),
    })
}

/// What the lexemes of a text stand for.
fn read(alloc: Global, text: &str, lexemes: &[Lexeme]) -> Result<Grammar, Fault<GrammarCause>>
    requires text { length text.now < 2 ^ 32 - 1 }
    requires lexemes { length lexemes.now < 2 ^ 32 }
    ensures answers { Answers (after start_place text.now) result (grammar by_id stage cat_number lexemes.now) }
    ensures few { IfOk result (λ g. length g.rules.items ≤ length lexemes.now) }
{
    let rest = lexemes;
    let mut reader = Reader { alloc, rest };
    match reader.clauses() {
        Ok(clauses) => grammar_of(alloc, clauses),
        Err(Fault::Memory) => Err(Fault::Memory),
        Err(Fault::Refused(refusal)) => {
            let place = place_of(text, reader.rest);
            Err(Fault::Refused(cause_at(refusal, place)))
        }
    }
}

/// What the bytes of a grammar stand for, with the numbers that the table gives to its symbols.
///
/// `Fault::Refused` says why they stand for no grammar, and `Fault::Memory` that memory ran out.
/// The table keeps the texts that it had, also after an error.
pub fn read_grammar(
    alloc: Global,
    symbols: &mut Symbols,
    bytes: &[u8],
) -> Result<Grammar, Fault<GrammarCause>>
    requires { length symbols.old + length bytes.now < 2 ^ 32 - 1 }
    ensures reads { IfOk result (λ g. StandsFor symbols.new bytes.now g) }
    ensures few { IfOk result (λ g. length g.rules.items ≤ length bytes.now) }
    ensures refused { IfErr result (λ fault. IsRefusedFor symbols.new bytes.now fault) }
    ensures extends { Extends symbols.old symbols.new }
    ensures growth { length symbols.new ≤ length symbols.old + length bytes.now }
{
    let text = match str::from_utf8(bytes) {
        Ok(text) => text,
        Err(error) => {
            let at = error.valid_up_to() as u64;
            return Err(Fault::Refused(GrammarCause::NotUtf8 { at }));
        }
    };
    let tokens = match tokens(alloc, text, 0, text.len(), 1, 1) {
        Ok(tokens) => tokens,
        Err(Fault::Memory) => return Err(Fault::Memory),
        Err(Fault::Refused(BadToken { line, column })) => {
            return Err(Fault::Refused(GrammarCause::BadToken { line, column }));
        }
    };
    let lexemes = lexemes(alloc, symbols, text, &tokens)?;
    symbols.recall();
    read(alloc, text, &lexemes)
}

/// What the lexemes of features stand for that end with a text.
fn features(
    alloc: Global,
    text: &str,
    lexemes: &[Lexeme],
) -> Result<Vec<Element>, Fault<GrammarCause>>
    requires { length text.now < 2 ^ 32 - 1 }
    ensures answers { AnswersFeatures (after start_place text.now) result (elements by_id stage lexemes.now) }
{
    let rest = lexemes;
    let mut reader = Reader { alloc, rest };
    match reader.elements() {
        Ok(elements) => Ok(elements),
        Err(Fault::Memory) => Err(Fault::Memory),
        Err(Fault::Refused(refusal)) => {
            let place = place_of(text, reader.rest);
            Err(Fault::Refused(cause_at(refusal, place)))
        }
    }
}

/// What features stand for, whose tokens are slices of a text and end with it, with the numbers that
/// the table gives to their words.
///
/// `Fault::Refused` says why they stand for none: `Expected`, `PathTooLong` or `TooDeep` alone.
/// The table keeps the texts that it had, also after an error.
pub fn read_elements(
    alloc: Global,
    symbols: &mut Symbols,
    text: &str,
    tokens: &[Token],
) -> Result<Vec<Element>, Fault<GrammarCause>>
    requires short { length text.now < 2 ^ 32 - 1 }
    requires spelled { All (IsSpelled text.now) tokens.now }
    requires room { length symbols.old + bytes_of tokens.now < 2 ^ 32 - 1 }
    ensures reads { IfOk result (λ elements. StandForFeatures stage symbols.new text.now tokens.now elements.items) }
    ensures refused { IfErr result (λ fault. AreRefusedFor stage text.now tokens.now fault) }
    ensures extends { Extends symbols.old symbols.new }
    ensures growth { length symbols.new ≤ length symbols.old + bytes_of tokens.now }
{
    let lexemes = lexemes(alloc, symbols, text, tokens)?;
    symbols.recall();
    features(alloc, text, &lexemes)
}
