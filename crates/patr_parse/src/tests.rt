ghost use Rattle.std.specs.Prelude.{◌≡◌, ◌<◌, ◌≤◌};
ghost use Rattle.patr_arena.specs.Blocks.{Extends};

use super::*;
use patr_arena::Nodes;
use patr_grammar::read_grammar;
use patr_lexicon::read_lexicon;
use patr_library::Library;
use patr_text::Symbols;
use patr_unify::Steps;
use std::alloc::{AllocError, Global};
use std::cell::Cell;
use std::marker::Brand;
use std::sync::ledger::{Blank, Ledger};
use std::test::Fail;

/// A grammar with agreement, and its lexicon.
const GRAMMAR: &[u8] =
    b"Rule S -> NP VP <NP agr> = <VP agr> <S subj> = <NP> <S pred> = <VP>\nRule NP -> Det N <NP agr> = <N agr> <Det agr> = <N agr>\nRule VP -> V <VP agr> = <V agr>\n";

const LEXICON: &[u8] =
    b"\\w the\n\\c Det\n\\w dog\n\\c N\n\\f <agr num> = sg\n\\w dogs\n\\c N\n\\f <agr num> = pl\n\\w barks\n\\c V\n\\f <agr num> = sg\n";

/// The symbols and the library of the grammar.
#[derive(Drop)]
struct Language {
    symbols: Symbols,
    library: Library,
}

fn sample(alloc: Global) -> Result<Language, Fail> {
    let mut symbols = Symbols::new(alloc)?;
    let Ok(grammar) = read_grammar(alloc, &mut symbols, GRAMMAR) else {
        return Err(AllocError.into());
    };
    let Ok(lexicon) = read_lexicon(alloc, &mut symbols, LEXICON) else {
        return Err(AllocError.into());
    };
    let Ok(library) = Library::build(alloc, grammar, lexicon) else {
        return Err(AllocError.into());
    };
    Ok(Language { symbols, library })
}

/// A gate that follows the tasks: those of each round come in order, from the first to the last, to the worker 0.
#[derive(Drop)]
struct Follower {
    /// The next task of the round, and how many tasks it has.
    next: Cell<u64>,
    of: Cell<u64>,
    /// How many tasks the rounds have together, and how many rounds there were.
    tasks: Cell<u64>,
    rounds: Cell<u64>,
    astray: Cell<bool>,
}

impl Follower {
    fn new() -> Follower {
        Follower {
            next: Cell::new(0),
            of: Cell::new(0),
            tasks: Cell::new(0),
            rounds: Cell::new(0),
            astray: Cell::new(false),
        }
    }

    /// Whether each of so many edges had its task.
    fn saw_all(&self, edges: u32) -> bool {
        !self.astray.get()
            && self.next.get() == self.of.get()
            && self.tasks.get() == u64::from(edges)
    }
}

impl Gate for Follower {
    fn pass(&self, worker: u32, task: u64, of: u64) {
        let ended = self.next.get() == self.of.get();
        if ended {
            self.of.set(of);
            self.next.set(0);
            self.tasks.set(self.tasks.get().wrapping_add(of));
            self.rounds.set(self.rounds.get().wrapping_add(1));
        }
        if worker != 0 || task != self.next.get() || of != self.of.get() || task >= of {
            self.astray.set(true);
        }
        self.next.set(task.wrapping_add(1));
    }
}

/// A sentence, and the most edges that its chart may have.
#[derive(Clone, Copy)]
struct Sentence<'a> {
    text: &'a str,
    limit: u32,
}

/// How many edges, analyses, decided pairs and rounds it takes, or why the sentence is refused.
type Outcome = Result<(u32, usize, u64, u64), ParseCause>;

/// Whether the root of the library's first rule is a node of the sentence's too, at its place and with as many arcs.
fn shows_first_rule(parsed: &Parsed<'_>, library: &Library) -> bool
    requires { Extends library.now.shown parsed.now.shown }
{
    let Some(item) = library.rules().first() else {
        return false;
    };
    let root = item.root;
    let view = parsed.view();
    let arena = library.arena();
    view.number(root) == arena.number(root) && view.arcs(root).len() == arena.arcs(root).len()
}

/// What becomes of a sentence, where the gate is told of each edge once.
fn outcome<L: Ledger>(
    alloc: Global,
    language: &Language,
    sentence: Sentence<'_>,
    blank: Blank,
) -> Result<Option<Outcome>, Memory>
    requires name { blank.name ≡ L.name }
    requires parts { blank.parts ≡ L.parts }
    requires some { 0 < blank.parts }
{
    let limit = sentence.limit.clamp(1, 200000);
    let words = words_of(alloc, sentence.text)?;
    if words.is_empty() {
        return Ok(None);
    }
    let gate = Follower::new();
    let mut steps = Steps::<L>::new(blank);
    match parse_alone(
        alloc,
        &language.library,
        &language.symbols,
        sentence.text,
        limit,
        &gate,
        &mut steps,
    ) {
        Ok(parsed) => {
            let edges = parsed.chart().len();
            if !gate.saw_all(edges) || !shows_first_rule(&parsed, &language.library) {
                return Ok(None);
            }
            let analyses = parsed.analyses().len();
            Ok(Some(Ok((edges, analyses, parsed.decided(), gate.rounds.get()))))
        }
        Err(Fault::Refused(cause)) => Ok(Some(Err(cause))),
        Err(Fault::Memory) => Err(AllocError),
    }
}

/// Sentences with their limits, and what becomes of them.
const SENTENCES: [(&str, u32, Outcome); 5] = [
    ("the dog barks", 200000, Ok((11, 1, 11, 6))),
    ("the\tdogs  barks", 200000, Ok((10, 0, 9, 5))),
    ("the dog barks", 11, Ok((11, 1, 11, 6))),
    (
        "the dog barks",
        10,
        Err(ParseCause::TooManyEdges { limit: 10 }),
    ),
    (
        "the cat barks loudly",
        200000,
        Err(ParseCause::UnknownWord { position: 2 }),
    ),
];

#[test]
fn sentences_are_parsed(rt: HostRuntime) -> Result<(), Fail> {
    let alloc = rt.alloc();
    let language = sample(alloc)?;
    for (text, limit, want) in SENTENCES {
        let sentence = Sentence { text, limit };
        let came = outcome::<Brand>(alloc, &language, sentence, Blank::new(1))?;
        assert_eq!(rt; came, Some(want), "{text}");
    }
    Ok(())
}

/// A sentence of so many words.
fn words(alloc: Global, count: u32) -> Result<String, Memory> {
    let mut text = String::new(alloc);
    for _ in 0..count {
        text.push_str("the ")?;
    }
    Ok(text)
}

#[test]
fn long_sentences_are_refused(rt: HostRuntime) -> Result<(), Fail> {
    let alloc = rt.alloc();
    let language = sample(alloc)?;
    let text = words(alloc, 257)?;
    let sentence = Sentence {
        text: text.as_str(),
        limit: 200000,
    };
    let came = outcome::<Brand>(alloc, &language, sentence, Blank::new(1))?;
    let cause = ParseCause::TooManyWords { count: 257 };
    assert_eq!(rt; came, Some(Err(cause)));
    Ok(())
}
