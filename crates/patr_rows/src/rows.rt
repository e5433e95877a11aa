//! Grammars, sentences and their replies; refused words and files.

use crate::devices::{Setting, gives, well};
use std::alloc::Global;
use std::sync::Wait;
use std::test::Fail;
use std::thread::Threads;

pub const FILES: &[&str] = &["g", "l"];

const BARKS: &[u8] = b"Rule S -> NP VP\nRule NP -> Det N\nRule VP -> V\n";

const ANIMALS: &[u8] = b"\\w the\n\\c Det\n\\w dog\n\\c N\n\\w dogs\n\\c N\n\\w barks\n\\c V\n";

const ATTACHMENT: &[u8] =
    b"Rule S -> NP VP Rule VP -> V NP Rule VP -> VP_1 PP Rule NP -> NP_1 PP Rule PP -> P NP";

const PARKS: &[u8] =
    b"\\w I\n\\c NP\n\\w saw\n\\c V\n\\w men\n\\c NP\n\\w in\n\\c P\n\\w parks\n\\c NP\n\\w with\n\\c P\n\\w dogs\n\\c NP";

/// Two files, an input, and what a run over them writes.
#[derive(Clone, Copy)]
pub struct Row {
    pub grammar: &'static [u8],
    pub lexicon: &'static [u8],
    pub input: &'static [u8],
    pub code: u8,
    pub written: &'static [u8],
}

/// Sessions that are answered.
const SENTENCES: &[Row] = &[
    Row {
        grammar: BARKS,
        lexicon: ANIMALS,
        input: b"the dog barks\n",
        code: 0,
        written: b"analyses 1\n1 (S (NP (Det the) (N dog)) (VP (V barks)))\n",
    },
    Row {
        grammar: BARKS,
        lexicon: ANIMALS,
        input: b"dog the",
        code: 0,
        written: b"analyses 0\n",
    },
    Row {
        grammar: BARKS,
        lexicon: ANIMALS,
        input: b"",
        code: 0,
        written: b"",
    },
    Row {
        grammar: BARKS,
        lexicon: ANIMALS,
        input: b" \t\r\n\r\nthe cat barks loudly\r\n\xFF\n\t:quit now\nthe\tdog  barks \r",
        code: 0,
        written: b"error: unknown word at 2: cat\nerror: line is not UTF-8\nerror: bad command\nanalyses 1\n1 (S (NP (Det the) (N dog)) (VP (V barks)))\n",
    },
    Row {
        grammar: ATTACHMENT,
        lexicon: PARKS,
        input: b"I saw men in parks\nI saw men in parks with dogs\n",
        code: 0,
        written: b"analyses 2\n1 (S (NP I) (VP (V saw) (NP (NP men) (PP (P in) (NP parks)))))\n2 (S (NP I) (VP (VP (V saw) (NP men)) (PP (P in) (NP parks))))\nanalyses 5\n1 (S (NP I) (VP (V saw) (NP (NP men) (PP (P in) (NP (NP parks) (PP (P with) (NP dogs)))))))\n2 (S (NP I) (VP (V saw) (NP (NP (NP men) (PP (P in) (NP parks))) (PP (P with) (NP dogs)))))\n3 (S (NP I) (VP (VP (V saw) (NP men)) (PP (P in) (NP (NP parks) (PP (P with) (NP dogs))))))\n4 (S (NP I) (VP (VP (V saw) (NP (NP men) (PP (P in) (NP parks)))) (PP (P with) (NP dogs))))\n5 (S (NP I) (VP (VP (VP (V saw) (NP men)) (PP (P in) (NP parks))) (PP (P with) (NP dogs))))\n",
    },
    Row {
        grammar: b"; a name, colons, dots and comments\nRULE {the sentence: 1} S -> NP VP: . rule NP -> Det N ; two\n.\nRule {} VP -> V:",
        lexicon: b"; words\n\\id 7\n more\n\\w the\r\n\\c N\n\\c Det\n\\g the one\n  ; no gloss\n\n\\w\n  dog\t\n\\f\n\\c \n N\n\\w barks\n\\c V",
        input: b"the dog barks\n",
        code: 0,
        written: b"analyses 1\n1 (S (NP (Det the) (N dog)) (VP (V barks)))\n",
    },
    Row {
        grammar: BARKS,
        lexicon: b"",
        input: b":limit 0\n:features\n:\n",
        code: 0,
        written: b"error: bad command\nerror: bad command\nerror: bad command\n",
    },
];

/// The number of the first row that gives something else, where one does.
pub fn first_other<R: Threads + Wait + Sync>(
    rt: &R,
    alloc: Global,
    rows: &[Row],
) -> Result<Option<usize>, Fail> {
    for (k, row) in rows.iter().enumerate() {
        let setting = well(row.grammar, row.lexicon, row.input);
        if !gives(rt, alloc, FILES, setting, row.code, row.written)? {
            return Ok(Some(k));
        }
    }
    Ok(None)
}

#[test]
fn sentences_are_answered(rt: HostRuntime) -> Result<(), Fail> {
    assert_eq!(rt; first_other(&rt, rt.alloc(), SENTENCES)?, None);
    Ok(())
}

/// Grammars, and why they are refused.
const BAD_GRAMMARS: &[(&[u8], &str)] = &[
    (
        b"Rule S -> NP VP <NP agr> =",
        " 1:27: expected a path or an atom",
    ),
    (b"Rule S -> A <B f> = x", " 1:14: not a constituent"),
    (b"Rule S -> A : <S f", " 1:19: expected '>'"),
    (b"", ": no rules"),
    (b"\x01", " 1:1: bad character"),
    (b"\xFF", ": not UTF-8 at byte 0"),
    (b"S -> NP", " 1:1: expected a clause"),
    (b"Rule S NP", " 1:8: expected '->'"),
    (b"Rule {S} -> A", " 1:10: expected a symbol"),
    (b"Rule {S -> A", " 1:13: expected '}'"),
    (b"Rule S -> A .\nRule let", " 2:6: expected a symbol"),
    (
        b"Rule S -> A B C D E F G H I J K L M N O P Q R S T U V W X Y Z A B C D E F G",
        " 1:75: too many symbols",
    ),
];

/// Lexicons, and why they are refused.
const BAD_LEXICONS: &[(&[u8], &str)] = &[
    (b"x", " 1: no word"),
    (b"\\w a", " 1: no category"),
    (b"\\w a\n\\c A\n\\w\n\\c", " 3: no word"),
    (b"\n\\w a b\n", " 2: several words"),
    (b"\\w a\n\\c A B\n", " 1: no category"),
    (
        b"\\w a\n\\c A\n\\f ; no\n  { <agr> = x",
        " 4:14: expected '}'",
    ),
    (
        b"\\w a\n\\c A\n\\f <x> =",
        " 3:9: expected a path or an atom",
    ),
    (b"\\w a\x07", " 1:5: bad character"),
    (b"\\w \xFF", ": not UTF-8 at byte 3"),
];

/// Whether a run refuses this file, `grammar` or `lexicon`, so.
pub fn refuses<R: Threads + Wait + Sync>(
    rt: &R,
    alloc: Global,
    setting: Setting,
    file: &str,
    code: u8,
    why: &str,
) -> Result<bool, Fail> {
    let line = format!(in alloc; "error: {file}{why}\n")?;
    gives(rt, alloc, FILES, setting, code, line.as_bytes())
}

#[test]
fn files_are_refused(rt: HostRuntime) -> Result<(), Fail> {
    let alloc = rt.alloc();
    for (grammar, why) in BAD_GRAMMARS {
        let setting = well(grammar, ANIMALS, b"the dog barks\n");
        assert!(rt; refuses(&rt, alloc, setting, "grammar", 2, why)?, "{why}");
    }
    for (lexicon, why) in BAD_LEXICONS {
        let setting = well(BARKS, lexicon, b"");
        assert!(rt; refuses(&rt, alloc, setting, "lexicon", 3, why)?, "{why}");
    }
    Ok(())
}

/// Words of another form.
const OTHER_WORDS: &[&[&str]] = &[
    &[],
    &["g"],
    &["g", "l", "x"],
    &["g", "-l"],
    &["g", "l", "--workers", "17"],
    &["g", "l", "--workers"],
    &["g", "l", "--limit", "1", "--limit", "1"],
    &["g", "l", "--limit", "+5"],
    &["g", "l", "--limit", "200001"],
];

#[test]
fn words_are_refused(rt: HostRuntime) -> Result<(), Fail> {
    let usage = b"usage: patr GRAMMAR LEXICON [--workers N] [--limit N]\n";
    let alloc = rt.alloc();
    let setting = well(BARKS, ANIMALS, b"the dog barks\n");
    for (k, words) in OTHER_WORDS.iter().enumerate() {
        assert!(rt; gives(&rt, alloc, words, setting, 1, usage)?, "row {k}");
    }
    // a name that no file has
    assert!(rt; gives(&rt, alloc, &["g", "x"], setting, 4, b"")?);
    Ok(())
}

/// A chain of rules whose edges occur again in one derivation.
const AGAIN: &[u8] = b"Rule T -> S W Rule S -> A A Rule A -> B B Rule B -> C C Rule C ->";

const ENDLESS: &[u8] = b"Rule A -> A_1";

const WORD: &[u8] = b"\\w w\n\\c W\n\\w a\n\\c A";

/// Words, a grammar, a lexicon, a sentence, and the reply under the limit that the words give.
type Limited = (
    &'static [&'static str],
    &'static [u8],
    &'static [u8],
    &'static [u8],
    &'static [u8],
);

const LIMITS: &[Limited] = &[
    (
        &["--limit", "11", "g", "l"],
        BARKS,
        ANIMALS,
        b"the dog barks",
        b"analyses 1\n1 (S (NP (Det the) (N dog)) (VP (V barks)))\n",
    ),
    (
        &["g", "--limit=10", "l"],
        BARKS,
        ANIMALS,
        b"the dog barks",
        b"error: more than 10 edges\n",
    ),
    (&["--limit=007", "--", "g", "l"], BARKS, ANIMALS, b"", b""),
    (
        &["g", "l", "--limit", "1"],
        ENDLESS,
        WORD,
        b"a",
        b"error: more than 1 edges\n",
    ),
    (
        &["g", "l", "--limit", "100", "--workers", "16"],
        ENDLESS,
        WORD,
        b"a",
        b"error: more than 100 edges\n",
    ),
    (
        &["g", "l", "--limit", "200000"],
        ENDLESS,
        WORD,
        b"a",
        b"error: more than 200000 edges\n",
    ),
    (
        &["g", "l"],
        ENDLESS,
        WORD,
        b"a",
        b"error: more than 20000 edges\n",
    ),
    (
        &["g", "l", "--limit", "17"],
        AGAIN,
        WORD,
        b"w",
        b"analyses 1\n1 (T (S (A (B (C) (C)) (B (C) (C))) (A (B (C) (C)) (B (C) (C)))) (W w))\n",
    ),
    (
        &["g", "l", "--limit", "16"],
        AGAIN,
        WORD,
        b"w",
        b"error: more than 16 edges\n",
    ),
];

#[test]
fn limits_are_kept(rt: HostRuntime) -> Result<(), Fail> {
    let alloc = rt.alloc();
    for (k, (words, grammar, lexicon, input, written)) in LIMITS.iter().enumerate() {
        let setting = well(grammar, lexicon, input);
        assert!(rt; gives(&rt, alloc, words, setting, 0, written)?, "row {k}");
    }
    Ok(())
}
