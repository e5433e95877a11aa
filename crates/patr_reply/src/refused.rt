//! The reply to a sentence that is refused.
ghost use Rattle.std.specs.Prelude.{◌≡◌, ℕ, suc, ◌++◌, Bool, List, length, map, slice_get, Some, codes, decimal, IfOk};
ghost use Rattle.std.specs.String.{string_bytes};
ghost use Rattle.patr_model.specs.Session.{Numbering, AgreesWith, IsSentenceReply, line};
ghost use Rattle.patr_model.specs.Solved.{solved};
ghost use Rattle.patr_text.specs.Texts.{first_texts, Extends};
ghost use Rattle.patr_library.specs.Stored.{Stored};
ghost use Rattle.patr_parse.specs.Sentences.{IsFirstCause};
ghost use Rattle.patr_reply.specs.Held.{AreHeldBy};
ghost use Rattle.patr_reply.specs.Lines.{grounds, state_of};

use patr_parse::ParseCause;
use patr_text::Memory;
use std::alloc::Global;

/// The word at this position, counted from 1; empty where there is none.
fn word_at<'a>(words: &[&'a str], position: u32) -> &'a str
    ensures { (i : ℕ) (w : List ℕ) → position ≡ suc i → slice_get (map (λ w. w.now) words.now) i ≡ Some w → result.now ≡ w }
{
    if position == 0 {
        return "";
    }
    let place = position as usize - 1;
    if place < words.len() {
        words[place]
    } else {
        ""
    }
}

/// The line on a word without an entry, at this position.
pub(crate) fn unknown_line(alloc: Global, position: u32, word: &str) -> Result<String, Memory>
    ensures { IfOk result (λ text. string_bytes text ≡ line (codes "error: unknown word at " ++ decimal position ++ codes ": " ++ word.now)) }
{
    format!(in alloc; "error: unknown word at {position}: {word}\n")
}

/// The line on a chart with more edges than this limit.
fn many_line(alloc: Global, limit: u32) -> Result<String, Memory>
    ensures { IfOk result (λ text. string_bytes text ≡ line (codes "error: more than " ++ decimal limit ++ codes " edges")) }
{
    format!(in alloc; "error: more than {limit} edges\n")
}

/// The reply to a sentence of these words that is refused for this reason. Fails for want of memory alone.
pub fn refusal(alloc: Global, cause: ParseCause, words: &[&str]) -> Result<String, Memory>
    ensures { (s : Stored) (table : List (List ℕ)) (limit : ℕ) (names : Numbering) (features : Bool) (count : Bool) → IsFirstCause s table (map (λ w. w.now) words.now) limit cause
        → Extends first_texts table → AreHeldBy (length table) s → AgreesWith names table
        → IfOk result (λ text. IsSentenceReply solved (grounds names s) (state_of limit features count) (map (λ w. w.now) words.now) (string_bytes text)) }
{
    match cause {
        ParseCause::TooManyWords { .. } => {
            String::from_str(alloc, "error: more than 256 words\n")
        }
        ParseCause::UnknownWord { position } => {
            unknown_line(alloc, position, word_at(words, position))
        }
        ParseCause::TooManyEdges { limit } => many_line(alloc, limit),
    }
}
