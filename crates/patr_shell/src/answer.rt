//! What a line comes to: a reply and the state behind it, or the end of the session.
ghost use Rattle.std.specs.Prelude.{◌≡◌, ℕ, ◌<◌, List, [], length, map, IfOk, IfSome, IfNone, string_bytes};
ghost use Rattle.patr_model.specs.Solved.{solved};
ghost use Rattle.patr_model.specs.Notations.{lines_with_commands};
ghost use Rattle.patr_model.specs.Session.{Numbering, AgreesWith, IsSentenceReply, words_of};
ghost use Rattle.patr_shell.specs.Spoken.{grounds, state_seen, HasLimit, MayBeSet};
ghost use Rattle.patr_shell.specs.Answering.{HasFirstWord, IsAnswer, IsAnswerToCommand, IsAnswerToWords};

use crate::command::{Command, command_of, on_off};
use crate::state::State;
use crate::{Gate, Language, Memory};
use patr_parse::{Fault, parse_words, words_of};
use patr_reply::{refusal, reply, show};
use patr_scratch::Scratch;
use patr_unify::Steps;
use std::alloc::{AllocError, Global};
use std::marker::Brand;
use std::sync::ledger::{Blank, Ledger};

/// A reply, and the state of the session behind it.
#[derive(Drop)]
pub struct Reply {
    pub text: String,
    pub state: State,
}

/// The words of a sentence.
#[derive(Clone, Copy)]
struct Sentence<'a> {
    words: &'a [&'a str],
}

/// The reply to a sentence. Its decisions are counted in this ledger.
fn sentence_reply<L: Ledger, G: Gate>(
    alloc: Global,
    language: &Language,
    state: State,
    sentence: Sentence<'_>,
    gate: &G,
    scratch: &mut Scratch,
    blank: Blank,
) -> Result<String, Memory>
    requires name { blank.name ≡ L.name }
    requires parts { blank.parts ≡ L.parts }
    requires some_parts { 0 < blank.parts }
    requires some { 0 < length sentence.words.now }
    requires limit { HasLimit state }
    ensures { (N : Numbering) → AgreesWith N language.now.texts → IfOk result (λ text.
        IsSentenceReply solved (grounds N language.now) (state_seen state)
        (map (λ w. w.now) sentence.entry.words.now) (string_bytes text)) }
{
    let symbols = language.symbols();
    let library = language.library();
    let mut steps = Steps::<L>::new(blank);
    match parse_words(
        alloc,
        library,
        symbols,
        sentence.words,
        state.limit,
        gate,
        scratch,
        &mut steps,
    ) {
        Ok(parsed) => {
            let nodes = parsed.view();
            reply(
                alloc,
                symbols,
                library,
                &parsed,
                &nodes,
                state.features,
                state.count,
            )
        }
        Err(Fault::Refused(cause)) => refusal(alloc, cause, sentence.words),
        Err(Fault::Memory) => Err(AllocError),
    }
}

/// What a command comes to; none where it ends the session.
fn command_answer(
    alloc: Global,
    language: &Language,
    state: State,
    command: Command<'_>,
) -> Result<Option<Reply>, Memory>
    requires limit { HasLimit state }
    requires set { MayBeSet command }
    ensures answer { IfOk result (λ answer. IsAnswerToCommand language.now state command.entry answer) }
    ensures limit { IfOk result (λ answer. IfSome answer (λ r. HasLimit r.state)) }
{
    match command {
        Command::Limit(limit) => Ok(Some(Reply {
            text: format!(in alloc; "limit {limit}\n")?,
            state: State { limit, ..state },
        })),
        Command::Features(features) => Ok(Some(Reply {
            text: format!(in alloc; "features {}\n", on_off(features))?,
            state: State { features, ..state },
        })),
        Command::Count(count) => Ok(Some(Reply {
            text: format!(in alloc; "count {}\n", on_off(count))?,
            state: State { count, ..state },
        })),
        Command::Show(word) => Ok(Some(Reply {
            text: show(alloc, language.symbols(), language.library(), word)?,
            state,
        })),
        Command::Quit => Ok(None),
    }
}

/// Whether the first word begins with a colon; none where there is no word.
fn begins_with_colon(words: &[&str]) -> Option<bool>
    ensures none { IfNone result (map (λ w. w.now) words.now ≡ []) }
    ensures some { IfSome result (λ colon. HasFirstWord (map (λ w. w.now) words.now) colon) }
{
    match words {
        [] => None,
        [first, ..] => Some(first.starts_with(':')),
    }
}

/// What the words of a line come to; none where they end the session.
fn words_answer<G: Gate>(
    alloc: Global,
    language: &Language,
    state: State,
    words: &[&str],
    gate: &G,
    scratch: &mut Scratch,
) -> Result<Option<Reply>, Memory>
    requires limit { HasLimit state }
    ensures answer { IfOk result (λ answer.
        IsAnswerToWords language.now state (map (λ w. w.now) words.now) answer) }
    ensures limit { IfOk result (λ answer. IfSome answer (λ r. HasLimit r.state)) }
{
    let Some(colon) = begins_with_colon(words) else {
        let text = String::new(alloc);
        return Ok(Some(Reply { text, state }));
    };
    if !colon {
        let sentence = Sentence { words };
        let blank = Blank::new(1);
        let text = sentence_reply::<Brand, G>(
            alloc, language, state, sentence, gate, scratch, blank,
        )?;
        return Ok(Some(Reply { text, state }));
    }
    match command_of(words) {
        Some(command) => command_answer(alloc, language, state, command),
        None => {
            let text = String::from_str(alloc, "error: bad command\n")?;
            Ok(Some(Reply { text, state }))
        }
    }
}

/// What a line without its end comes to, by the first that fits: a reply and the state behind it, or none where it
/// ends the session. The reply to a line of white space is empty. Fails for want of memory alone. Unifications mark
/// nodes in `scratch`.
pub fn line_answer<G: Gate>(
    alloc: Global,
    language: &Language,
    state: State,
    line: &[u8],
    gate: &G,
    scratch: &mut Scratch,
) -> Result<Option<Reply>, Memory>
    requires limit { HasLimit state }
    ensures answer { IfOk result (λ answer. IsAnswer language.now state line.now answer) }
    ensures limit { IfOk result (λ answer. IfSome answer (λ r. HasLimit r.state)) }
{
    if line.len() > 4096 {
        let text = String::from_str(alloc, "error: line too long\n")?;
        return Ok(Some(Reply { text, state }));
    }
    let Ok(text) = std::str::from_utf8(line) else {
        let text = String::from_str(alloc, "error: line is not UTF-8\n")?;
        return Ok(Some(Reply { text, state }));
    };
    let words = words_of(alloc, text)?;
    words_answer(alloc, language, state, &words, gate, scratch)
}
