//! The words of a sentence and their numbers, or the first cause for which it is refused.
ghost use Rattle.std.specs.Prelude.{◌≡◌, ℕ, ◌<◌, ◌≤◌, ◌++◌, length, map, IfOk, IfErr, MatchOption};
ghost use Rattle.patr_arena.specs.Paths.{ids};
ghost use Rattle.patr_model.specs.Session.{words_of};
ghost use Rattle.patr_model.specs.Table.{IsTable};
ghost use Rattle.patr_parse.specs.Sentences.{IsKnown, IsRefusedFor};
ghost use Rattle.patr_parse.specs.Words.{AreKnown, IsNumberOf, between_tabs};

use crate::parse::ParseCause;
use patr_library::Library;
use patr_text::{Fault, Id, Memory, Symbols};
use std::alloc::Global;

// Puts the parts of a text between tabs that are not empty behind the words.
fn push_words<'a>(words: &mut Vec<&'a str>, text: &'a str) -> Result<(), Memory>
    ensures { IfOk result (λ _. map (λ w. w.now) words.new.items ≡ map (λ w. w.now) words.old.items
        ++ between_tabs text.now) }
{
    for word in text.split('\t') {
        if word.is_empty() {
            continue;
        }
        words.push(word)?;
    }
    Ok(())
}

/// The words of a sentence, cut at spaces and tabs. Fails for want of memory alone.
pub fn words_of<'a>(alloc: Global, sentence: &'a str) -> Result<Vec<&'a str>, Memory>
    ensures { IfOk result (λ words. map (λ w. w.now) words.items ≡ words_of sentence.now) }
{
    let mut words = Vec::new(alloc);
    for text in sentence.split(' ') {
        push_words(&mut words, text)?;
    }
    Ok(words)
}

/// The number of a word, where it has an entry.
pub fn known_word(library: &Library, symbols: &Symbols, word: &str) -> Option<Id>
    requires { IsTable symbols.now }
    ensures { MatchOption result (IsKnown library.now symbols.now word.now → ⊥) (λ id. IsNumberOf
        library.now symbols.now word.now id.0) }
{
    let Some(id) = symbols.find(word) else {
        return None;
    };
    if library.lexicon().entries_of(id).is_empty() {
        None
    } else {
        Some(id)
    }
}

// The numbers of the words, each of which has an entry.
fn known_words(
    alloc: Global,
    library: &Library,
    symbols: &Symbols,
    words: &[&str],
) -> Result<Vec<Id>, Fault<ParseCause>>
    requires short { length words.now ≤ 256 }
    requires table { IsTable symbols.now }
    ensures numbers { IfOk result (λ numbers. AreKnown library.now symbols.now (map (λ w. w.now)
        words.now) (ids numbers.items)) }
    ensures refused { (limit : ℕ) → IfErr result (λ fault. IsRefusedFor library.now symbols.now (map
        (λ w. w.now) words.now) limit fault) }
{
    let mut numbers = Vec::new(alloc);
    for (place, word) in words.iter().enumerate() {
        let Some(id) = known_word(library, symbols, word) else {
            let position = place as u32 + 1;
            return Err(Fault::Refused(ParseCause::UnknownWord { position }));
        };
        numbers.push(id)?;
    }
    Ok(numbers)
}

/// The numbers of a sentence's words, each of which has an entry.
///
/// `Fault::Refused` gives the first cause that the words give: `ParseCause::TooManyWords` or `ParseCause::UnknownWord`.
pub(crate) fn numbers_of(
    alloc: Global,
    library: &Library,
    symbols: &Symbols,
    words: &[&str],
) -> Result<Vec<Id>, Fault<ParseCause>>
    ensures numbers { IfOk result (λ numbers. AreKnown library.now symbols.now
        (map (λ w. w.now) words.now) (ids numbers.items)) }
    ensures refused { (limit : ℕ) → IfErr result (λ fault. IsRefusedFor library.now symbols.now
        (map (λ w. w.now) words.now) limit fault) }
{
    if words.len() > 256 {
        let count = words.len() as u64;
        return Err(Fault::Refused(ParseCause::TooManyWords { count }));
    }
    // no two numbers have one text
    let _count = symbols.len();
    known_words(alloc, library, symbols, words)
}
