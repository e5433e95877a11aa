//! The words of the command line: `GRAMMAR LEXICON [--workers N] [--limit N]`.
ghost use Rattle.std.specs.Prelude.{◌≡◌, [], ◌∷◌, ◌≤◌, ℕ, List, map, option_map, Some, None, IfOk, IfSome, string_bytes};
ghost use Rattle.patr_model.specs.Session.{number_of};
ghost use Rattle.patr_model.specs.CommandLine.{begins_with_dash, with_value, only, said, word_kind, value_or, named, setup_of, command_words};
ghost use Rattle.patr_shell.specs.Words.{setup_seen, flag_seen, kind_seen, other_kind, said_seen, said_then, said_in_all};

use crate::Memory;
use std::alloc::Global;

/// The greatest number of workers.
const MOST_WORKERS: u32 = 16;

/// The greatest limit, in edges.
pub const MOST_EDGES: u32 = 200_000;

/// The limit where none is given, in edges.
const DEFAULT_LIMIT: u32 = 20_000;

/// What the words of the command line say: the names of the two files, and the limit on edges.
#[derive(Clone, Copy)]
pub struct Setup<'a> {
    pub grammar: &'a str,
    pub lexicon: &'a str,
    pub limit: u32,
}

/// An option, whose value is a number.
#[derive(Clone, Copy)]
enum Flag {
    Workers,
    Limit,
}

/// What a word is before a word `--`: that word, an option whose value is the next word, an option with
/// its value, another word with `-`, or a name.
#[derive(Clone, Copy)]
enum WordKind<'a> {
    EndOfOptions,
    Opens(Flag),
    Holds(Flag, &'a str),
    NoOption,
    Name,
}

/// How the next word is taken: by its kind, as an option's value, or as a name whatever it is.
#[derive(Clone, Copy)]
enum NextWord {
    Any,
    Value(Flag),
    Name,
}

/// The names, and the values of each option, in their order.
#[derive(Drop)]
struct Said<'a> {
    names: Vec<&'a str>,
    workers: Vec<&'a str>,
    limits: Vec<&'a str>,
}

impl<'a> Said<'a> {
    /// Puts a name behind the others.
    fn add_name(&mut self, name: &'a str) -> Result<(), Memory>
        ensures { IfOk result (λ _.
            said_seen self.new ≡ said_then (said_seen self.old) (only (name.now ∷ []))) }
    {
        self.names.push(name)?;
        Ok(())
    }

    /// Puts an option's value behind the others.
    fn add_value(&mut self, flag: Flag, value: &'a str) -> Result<(), Memory>
        ensures { IfOk result (λ _. said_seen self.new
            ≡ said_then (said_seen self.old) (with_value (flag_seen flag) value.now (only []))) }
    {
        match flag {
            Flag::Workers => self.workers.push(value)?,
            Flag::Limit => self.limits.push(value)?,
        }
        Ok(())
    }

    /// Takes a word, and answers how the word behind it is taken; none where the word is of no form.
    fn take(&mut self, word: &'a str, next: NextWord) -> Result<Option<NextWord>, Memory>
        ensures { IfOk result (λ after. (ws : List (List ℕ)) → said_in_all self.new after ws
            ≡ said_in_all self.old (Some next) (word.now ∷ ws)) }
    {
        match next {
            NextWord::Any => self.take_by_kind(word),
            NextWord::Value(flag) => {
                self.add_value(flag, word)?;
                Ok(Some(NextWord::Any))
            }
            NextWord::Name => {
                self.add_name(word)?;
                Ok(Some(NextWord::Name))
            }
        }
    }

    /// Takes a word by its kind, and answers as `take` does.
    fn take_by_kind(&mut self, word: &'a str) -> Result<Option<NextWord>, Memory>
        ensures { IfOk result (λ after. (ws : List (List ℕ)) → said_in_all self.new after ws
            ≡ option_map (said_then (said_seen self.old)) (said None (word.now ∷ ws))) }
    {
        match word_kind(word) {
            WordKind::EndOfOptions => Ok(Some(NextWord::Name)),
            WordKind::Opens(flag) => Ok(Some(NextWord::Value(flag))),
            WordKind::Holds(flag, value) => {
                self.add_value(flag, value)?;
                Ok(Some(NextWord::Any))
            }
            WordKind::NoOption => Ok(None),
            WordKind::Name => {
                self.add_name(word)?;
                Ok(Some(NextWord::Any))
            }
        }
    }

    /// The setup that is meant: exactly two names, and each option at most once and within its limits.
    fn setup(&self) -> Option<Setup<'a>>
        ensures setup { setup_seen result ≡ setup_of (said_seen self.now) }
        ensures limit { IfSome result (λ setup. (1 ≤ setup.limit) × (setup.limit ≤ 200000)) }
    {
        value_or(MOST_WORKERS, 1, &self.workers)?;
        let limit = value_or(MOST_EDGES, DEFAULT_LIMIT, &self.limits)?;
        named(&self.names, limit)
    }
}

/// What the words of the command line say; none where they are not of the form. It fails for want of
/// memory alone. The number of workers is read, and one worker runs.
pub fn read_setup(alloc: Global, words: &[String]) -> Result<Option<Setup<'_>>, Memory>
    ensures words { IfOk result (λ found.
        setup_seen found ≡ command_words (map string_bytes words.now)) }
    ensures limit { IfOk result (λ found.
        IfSome found (λ setup. (1 ≤ setup.limit) × (setup.limit ≤ 200000))) }
{
    match read_words(alloc, words)? {
        Some(said) => Ok(said.setup()),
        None => Ok(None),
    }
}

/// What the words say; none where a value is missing or a word is of no form.
fn read_words(alloc: Global, words: &[String]) -> Result<Option<Said<'_>>, Memory>
    ensures { IfOk result (λ found.
        option_map said_seen found ≡ said None (map string_bytes words.now)) }
{
    let mut said = Said {
        names: Vec::new(alloc),
        workers: Vec::new(alloc),
        limits: Vec::new(alloc),
    };
    let mut next = NextWord::Any;
    for word in words {
        match said.take(word.as_str(), next)? {
            Some(after) => next = after,
            None => return Ok(None),
        }
    }
    match next {
        NextWord::Value(_) => Ok(None),
        _ => Ok(Some(said)),
    }
}

/// What a word is before a word `--`.
fn word_kind(word: &str) -> WordKind<'_>
    ensures { kind_seen result ≡ word_kind word.now }
{
    match word {
        "--" => WordKind::EndOfOptions,
        "--workers" => WordKind::Opens(Flag::Workers),
        "--limit" => WordKind::Opens(Flag::Limit),
        _ => other_kind(word),
    }
}

/// What a word is that is neither `--` nor an option alone.
fn other_kind(word: &str) -> WordKind<'_>
    ensures { kind_seen result ≡ other_kind word.now }
{
    if let Some(value) = word.strip_prefix("--workers=") {
        return WordKind::Holds(Flag::Workers, value);
    }
    if let Some(value) = word.strip_prefix("--limit=") {
        return WordKind::Holds(Flag::Limit, value);
    }
    if begins_with_dash(word) {
        WordKind::NoOption
    } else {
        WordKind::Name
    }
}

/// Whether a word begins with `-` and is not `-` alone.
fn begins_with_dash(word: &str) -> bool
    ensures { result ≡ begins_with_dash word.now }
{
    matches!(word.as_bytes(), [b'-', _, ..])
}

/// The setup of exactly two names.
fn named<'a>(names: &[&'a str], limit: u32) -> Option<Setup<'a>>
    ensures { setup_seen result ≡ named (map (λ name. name.now) names.now) limit }
{
    match names {
        [grammar, lexicon] => Some(Setup {
            grammar,
            lexicon,
            limit,
        }),
        _ => None,
    }
}

/// The value of an option that stands at most once, from 1 to the greatest, or the number where it does
/// not stand.
fn value_or(most: u32, default: u32, values: &[&str]) -> Option<u32>
    ensures { result ≡ value_or most default (map (λ value. value.now) values.now) }
{
    match values {
        [] => Some(default),
        [value] => number_of(most, value),
        [_, _, ..] => None,
    }
}

/// The number from 1 to the greatest that one to six digits spell.
pub fn number_of(most: u32, text: &str) -> Option<u32>
    ensures number { result ≡ number_of most text.now }
    ensures within { IfSome result (λ n. (1 ≤ n) × (n ≤ most)) }
{
    let digits = text.as_bytes();
    if digits.is_empty() || digits.len() > 6 {
        return None;
    }
    let mut number = 0;
    for digit in digits {
        if !digit.is_ascii_digit() {
            return None;
        }
        number = 10 * number + u32::from(*digit - b'0');
    }
    (1..=most).contains(&number).then_some(number)
}

#[cfg(test)]
mod tests {
    use super::*;
    use std::test::Fail;

    /// Words, and the names and the limit that they give.
    const ROWS: &[(&str, &str)] = &[
        ("g l", "g l 20000"),
        ("--limit=007 -- g l", "g l 7"),
        ("--workers 4 -- -g l", "-g l 20000"),
        ("g --limit 200000 l --workers 16", "g l 200000"),
        ("g -- -l", "g -l 20000"),
        ("-- g --", "g -- 20000"),
        ("- -", "- - 20000"),
        ("g l --workers 17", "refused"),
        ("g", "refused"),
        ("--", "refused"),
        ("g l x", "refused"),
        ("g l -x", "refused"),
        ("g l --limit 1 --limit 1", "refused"),
        ("g l --limit=1 --limit 1", "refused"),
        ("g l --limit +5", "refused"),
        ("g l --limit=", "refused"),
        ("g l --limit 0", "refused"),
        ("g l --limit 200001", "refused"),
        ("g l --limit 0000007", "refused"),
        ("g l --workers", "refused"),
        ("g l --workers --", "refused"),
        ("g l --workers=", "refused"),
        ("--workers --limit 5 g l", "refused"),
        ("g l --worker=4", "refused"),
    ];

    /// The setup of the words that spaces part.
    fn shown(alloc: Global, text: &str) -> Result<String, Fail> {
        let mut words = Vec::new(alloc);
        for word in text.split(' ') {
            words.push(String::from_str(alloc, word)?)?;
        }
        match read_setup(alloc, &words)? {
            Some(setup) => {
                Ok(format!(in alloc; "{} {} {}", setup.grammar, setup.lexicon, setup.limit)?)
            }
            None => Ok(String::from_str(alloc, "refused")?),
        }
    }

    #[test]
    fn words_give_a_setup(rt: HostRuntime) -> Result<(), Fail> {
        for (words, want) in ROWS {
            assert_eq!(rt; shown(rt.alloc(), words)?.as_str(), *want, "at {words}");
        }
        Ok(())
    }
}
