//! Grammars with path equations, sentences and their replies; commands; long sentences.

use crate::devices::{gives, well};
use crate::rows::{FILES, Row, first_other};
use std::alloc::Global;
use std::test::Fail;

/// Subject and verb agree, and so do noun and determiner.
const AGREEMENT: &[u8] =
    b"Rule S -> NP VP <NP agr> = <VP agr> <S subj> = <NP> <S pred> = <VP>\nRule NP -> Det N <NP agr> = <N agr> <Det agr> = <N agr>\nRule VP -> V <VP agr> = <V agr>\n";

const DOGS: &[u8] =
    b"\\w the\n\\c Det\n\\w dog\n\\c N\n\\f <agr num> = sg\n\\w dogs\n\\c N\n\\f <agr num> = pl\n\\w barks\n\\c V\n\\f <agr num> = sg\n";

const SESSIONS: &[Row] = &[
    Row {
        grammar: AGREEMENT,
        lexicon: DOGS,
        input: b":features on\n:count on\nthe dog barks\nthe dogs barks\nthe cat barks loudly\n:features off\nthe dog barks\n",
        code: 0,
        written: b"features on\ncount on\nanalyses 1\n1 (S (NP (Det the) (N dog)) (VP (V barks)))\n  [cat: S pred: [agr: #1 [num: sg] cat: VP] subj: [agr: #1 cat: NP]]\nedges 11\nanalyses 0\nedges 10\nerror: unknown word at 2: cat\nfeatures off\nanalyses 1\n1 (S (NP (Det the) (N dog)) (VP (V barks)))\nedges 11\n",
    },
    // a limit on edges holds for the sentences that follow
    Row {
        grammar: AGREEMENT,
        lexicon: DOGS,
        input: b":limit 10\nthe dog barks\n:limit 000011\nthe dog barks\n",
        code: 0,
        written: b"limit 10\nerror: more than 10 edges\nlimit 11\nanalyses 1\n1 (S (NP (Det the) (N dog)) (VP (V barks)))\n",
    },
    // a path equation shares, also what is told later; one value at two places of an entry is told once
    Row {
        grammar: b"Rule S -> A B <S left> = <A f> <S right> = <A f> <S other> = <B f>",
        lexicon: b"\\w a\n\\c A\n\\f <f g> = x\n\\w b\n\\c B\n\\f <f g> = x",
        input: b":features on\n:count on\na b",
        code: 0,
        written: b"features on\ncount on\nanalyses 1\n1 (S (A a) (B b))\n  [cat: S left: #1 [g: x] other: [g: x] right: #1]\nedges 5\n",
    },
    // two daughters of one entry share nothing
    Row {
        grammar: b"Rule S -> N_1 N_2 <S x> = <N_1 f> <S y> = <N_2 f>",
        lexicon: b"\\w b\n\\c N\n\\f <f g h> = x",
        input: b":features on\n:count on\nb b\n",
        code: 0,
        written: b"features on\ncount on\nanalyses 1\n1 (S (N b) (N b))\n  [cat: S x: [g: [h: x]] y: [g: [h: x]]]\nedges 5\n",
    },
    // a rule that would be a circle gives no edges
    Row {
        grammar: b"Rule S -> A <S f> = <S>",
        lexicon: b"\\w a\n\\c A",
        input: b":features on\n:count on\na\n",
        code: 0,
        written: b"features on\ncount on\nanalyses 0\nedges 1\n",
    },
    // values that no atom tells are shared as well
    Row {
        grammar: b"Rule S -> A <S l> = <S r> <S l> = <A f>",
        lexicon: b"\\w a\n\\c A\n\\f <f> = x\n\\w u\n\\c A",
        input: b":features on\n:count on\na\nu\n",
        code: 0,
        written: b"features on\ncount on\nanalyses 1\n1 (S (A a))\n  [cat: S l: x r: x]\nedges 3\nanalyses 1\n1 (S (A u))\n  [cat: S l: #1 [] r: #1]\nedges 3\n",
    },
    // edges that occur again in one derivation count once, and each occurrence counts in its size
    Row {
        grammar: b"Rule T -> S W Rule S -> A A Rule A -> B B Rule B -> C C Rule C ->",
        lexicon: b"\\w w\n\\c W",
        input: b":features on\n:count on\n:limit 17\nw\n:limit 16\nw\n",
        code: 0,
        written: b"features on\ncount on\nlimit 17\nanalyses 1\n1 (T (S (A (B (C) (C)) (B (C) (C))) (A (B (C) (C)) (B (C) (C)))) (W w))\n  [cat: T]\nedges 14\nlimit 16\nerror: more than 16 edges\n",
    },
    // prediction goes by category alone: a rule whose features clash is begun too
    Row {
        grammar: b"Rule S -> V VP <VP head form> = <V comp>\nRule VP -> X <VP head form> = fin\nRule VP -> Y <VP head form> = inf",
        lexicon: b"\\w v\n\\c V\n\\f <comp> = fin\n\\w x\n\\c X",
        input: b":features on\n:count on\nv x\n",
        code: 0,
        written: b"features on\ncount on\nanalyses 1\n1 (S (V v) (VP (X x)))\n  [cat: S]\nedges 8\n",
    },
    // two analyses of one text are both written
    Row {
        grammar: b"Rule S -> A <A h> = x\nRule S -> A <A h> = x",
        lexicon: b"\\w a\n\\c A",
        input: b"a\n",
        code: 0,
        written: b"analyses 2\n1 (S (A a))\n2 (S (A a))\n",
    },
    // what stands behind the end of a session is not answered
    Row {
        grammar: AGREEMENT,
        lexicon: DOGS,
        input: b"the dogs barks\n\t:quit \nthe dog barks\n",
        code: 0,
        written: b"analyses 0\n",
    },
    Row {
        grammar: AGREEMENT,
        lexicon: DOGS,
        input: b":limit 200001\n:limit 0\n:count\n:count On\n:show\n:grammar\n:quit now\n:limit 0000001\n",
        code: 0,
        written: b"error: bad command\nerror: bad command\nerror: bad command\nerror: bad command\nerror: bad command\nerror: bad command\nerror: bad command\nerror: bad command\n",
    },
];

#[test]
fn structures_are_written(rt: HostRuntime) -> Result<(), Fail> {
    assert_eq!(rt; first_other(&rt, rt.alloc(), SESSIONS)?, None);
    Ok(())
}

/// A list of words, of which each but the last stands before a shorter list.
const LIST: &[u8] = b"Rule S -> W S_1 Rule S -> W";

/// A text so many times, and then another.
pub fn repeated(alloc: Global, text: &str, count: usize, last: &str) -> Result<String, Fail> {
    let mut all = String::new(alloc);
    for _ in 0..count {
        all.push_str(text)?;
    }
    all.push_str(last)?;
    Ok(all)
}

#[test]
fn long_sentences_are_parsed(rt: HostRuntime) -> Result<(), Fail> {
    let alloc = rt.alloc();
    let words = &["g", "l", "--limit", "40000"];
    let input = format!(in alloc;
        ":count on\n{}",
        repeated(alloc, "w ", 255, "w\nw\n")?.as_str()
    )?;
    let mut tree = repeated(alloc, "(S (W w) ", 255, "(S (W w))")?;
    tree.push_str(repeated(alloc, ")", 255, "")?.as_str())?;
    let written = format!(in alloc;
        "count on\nanalyses 1\n1 {}\nedges 33922\nanalyses 1\n1 (S (W w))\nedges 7\n",
        tree.as_str()
    )?;
    let setting = well(LIST, b"\\w w\n\\c W", input.as_bytes());
    assert!(rt; gives(&rt, alloc, words, setting, 0, written.as_bytes())?);

    let longer = repeated(alloc, "w ", 257, "\n")?;
    let setting = well(LIST, b"\\w w\n\\c W", longer.as_bytes());
    assert!(rt;
        gives(
            &rt,
            alloc,
            words,
            setting,
            0,
            b"error: more than 256 words\n"
        )?
    );
    Ok(())
}

/// So many equal equations in one rule are built, and one more is refused.
#[test]
fn many_equations_are_refused(rt: HostRuntime) -> Result<(), Fail> {
    let alloc = rt.alloc();
    for (count, code, written) in [
        (1024, 0, "analyses 1\n1 (S (A a))\n"),
        (
            1025,
            2,
            "error: grammar 1: more than 1024 equations (1025)\n",
        ),
    ] {
        let grammar = format!(in alloc;
            "Rule S -> A{}",
            repeated(alloc, " <S f> = x", count, "")?.as_str()
        )?;
        let setting = well(grammar.as_bytes(), b"\\w a\n\\c A", b"a\n");
        assert!(rt;
            gives(&rt, alloc, FILES, setting, code, written.as_bytes())?,
            "with {count}"
        );
    }
    Ok(())
}
