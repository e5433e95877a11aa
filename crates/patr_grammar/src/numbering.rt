//! The numbers of the texts of tokens.
ghost use Rattle.std.specs.Prelude.{◌≡◌, ◌+◌, ◌-◌, ◌^◌, ◌<◌, ◌≤◌, length, map, IfOk};
ghost use Rattle.std.specs.List.{All};
ghost use Rattle.patr_model.specs.Renaming.{Each};
ghost use Rattle.patr_model.specs.Lexemes.{without_index};
ghost use Rattle.patr_text.specs.Texts.{Extends};
ghost use Rattle.patr_text.specs.Tokens.{seen};
ghost use Rattle.patr_grammar.specs.Reading.{IsText};
ghost use Rattle.patr_grammar.specs.Views.{IsSpelled, bytes_of, IsLexeme};

use crate::lexeme::Lexeme;
use crate::words::{key_of, without_index};
use patr_text::{Id, Memory, Symbols, Token};
use std::alloc::Global;

/// The numbers of a text and of its category.
fn numbers(symbols: &mut Symbols, text: &str) -> Result<(Id, Id), Memory>
    requires some { 0 < length text.now }
    requires room { length symbols.old + length text.now < 2 ^ 32 - 1 }
    ensures word { IfOk result (λ n. IsText symbols.new n.0 text.now) }
    ensures category { IfOk result (λ n. IsText symbols.new n.1 (without_index text.now)) }
    ensures extends { Extends symbols.old symbols.new }
    ensures growth { length symbols.new ≤ length symbols.old + length text.now }
{
    let word = symbols.intern(text)?;
    let name = without_index(text);
    if name.len() == text.len() {
        return Ok((word, word));
    }
    let category = symbols.intern(name)?;
    Ok((word, category))
}

/// A token with the numbers of its text and of its category.
fn lexeme(symbols: &mut Symbols, text: &str, token: Token) -> Result<Lexeme, Memory>
    requires spelled { IsSpelled text.now token }
    requires room { length symbols.old + (token.end - token.start) < 2 ^ 32 - 1 }
    ensures numbers { IfOk result (λ l. IsLexeme symbols.new l (seen text.now token)) }
    ensures extends { Extends symbols.old symbols.new }
    ensures growth { length symbols.new ≤ length symbols.old + (token.end - token.start) }
{
    let text = &text[token.start..token.end];
    let (word, category) = numbers(symbols, text)?;
    Ok(Lexeme {
        kind: token.kind,
        key: key_of(text),
        word,
        category,
        line: token.line,
        column: token.column,
    })
}

/// Tokens with the numbers of their texts and of their categories.
pub fn lexemes(
    alloc: Global,
    symbols: &mut Symbols,
    text: &str,
    tokens: &[Token],
) -> Result<Vec<Lexeme>, Memory>
    requires spelled { All (IsSpelled text.now) tokens.now }
    requires room { length symbols.old + bytes_of tokens.now < 2 ^ 32 - 1 }
    ensures numbers { IfOk result (λ v. Each (IsLexeme symbols.new) v.items (map (seen text.now) tokens.now)) }
    ensures extends { Extends symbols.old symbols.new }
    ensures growth { length symbols.new ≤ length symbols.old + bytes_of tokens.now }
{
    let mut lexemes = Vec::with_capacity(alloc, tokens.len())?;
    for token in tokens {
        let lexeme = lexeme(symbols, text, *token)?;
        lexemes.push(lexeme)?;
    }
    Ok(lexemes)
}
