//! Grammars and lexicons with templates, options and alternatives: replies, variants in order, and what is too large.

use crate::devices::{gives, well};
use crate::equations::repeated;
use crate::rows::{FILES, Row, first_other, refuses};
use std::alloc::Global;
use std::sync::Wait;
use std::test::Fail;
use std::thread::Threads;

/// An entry `a` of category A without features.
const PLAIN: &[u8] = b"\\w a\n\\c A";

/// Each sentence shows what is known of its one word.
const WHOLE: &[u8] = b"Rule S -> A: <S is> = <A>";

const SESSIONS: &[Row] = &[
    // the equation on A is no part of the variant that leaves A out, and that variant is an edge
    Row {
        grammar: b"Rule S -> (A) <A f> = x",
        lexicon: b"\\w a\n\\c A\n\\f <f> = y",
        input: b":features on\n:count on\na\n",
        code: 0,
        written: b"features on\ncount on\nanalyses 0\nedges 3\n",
    },
    Row {
        grammar: b"Rule S -> (A) <A f> = x",
        lexicon: b"\\w a\n\\c A\n\\f <f> = y\n\\w a\n\\c A\n\\f <f> = x",
        input: b":features on\n:count on\na\n",
        code: 0,
        written: b"features on\ncount on\nanalyses 1\n1 (S (A a))\n  [cat: S]\nedges 5\n",
    },
    // two variants of one text are two analyses
    Row {
        grammar: b"Rule S -> A { <A h> = x / <A k> = y }",
        lexicon: b"\\w a\n\\c A\n\\f <h> = x",
        input: b":features on\n:count on\na\n",
        code: 0,
        written: b"features on\ncount on\nanalyses 2\n1 (S (A a))\n  [cat: S]\n2 (S (A a))\n  [cat: S]\nedges 5\n",
    },
    Row {
        grammar: b"Rule S -> A E (B)\nRule E ->",
        lexicon: b"\\w a\n\\c A\n\\w b\n\\c B",
        input: b":features on\n:count on\na\na b\n",
        code: 0,
        written: b"features on\ncount on\nanalyses 1\n1 (S (A a) (E))\n  [cat: S]\nedges 8\nanalyses 1\n1 (S (A a) (E) (B b))\n  [cat: S]\nedges 10\n",
    },
    Row {
        grammar: b"Rule S -> (A) (A) (A) (A) (A) (A) (A) (A)",
        lexicon: PLAIN,
        input: b"a\n",
        code: 0,
        written: b"analyses 8\n1 (S (A a))\n2 (S (A a))\n3 (S (A a))\n4 (S (A a))\n5 (S (A a))\n6 (S (A a))\n7 (S (A a))\n8 (S (A a))\n",
    },
    // alternatives inside alternatives: A B C, A B, A D, A C and A
    Row {
        grammar: b"Rule S -> A { B (C) / (D / C) }",
        lexicon: b"\\w a\n\\c A\n\\w b\n\\c B\n\\w c\n\\c C",
        input: b":count on\na\na b c\na b\nb\n",
        code: 0,
        written: b"count on\nanalyses 1\n1 (S (A a))\nedges 11\nanalyses 1\n1 (S (A a) (B b) (C c))\nedges 16\nanalyses 1\n1 (S (A a) (B b))\nedges 14\nanalyses 0\nedges 6\n",
    },
    // an equation of two constituents is dropped where one of them is left out
    Row {
        grammar: b"Rule S -> A (B): <A f> = <B f>",
        lexicon: b"\\w a\n\\c A\n\\f <f> = x\n\\w b\n\\c B\n\\f <f> = y",
        input: b":count on\na\na b\n",
        code: 0,
        written: b"count on\nanalyses 1\n1 (S (A a))\nedges 5\nanalyses 0\nedges 6\n",
    },
    // a symbol that stands twice means its first place in the variant
    Row {
        grammar: b"Rule S -> (A) B A: <S f> = <A lex>",
        lexicon: b"\\w a\n\\c A\n\\w b\n\\c B\n\\w c\n\\c A",
        input: b":features on\n:count on\na b c\nb c\n",
        code: 0,
        written: b"features on\ncount on\nanalyses 1\n1 (S (A a) (B b) (A c))\n  [cat: S f: a]\nedges 8\nanalyses 1\n1 (S (B b) (A c))\n  [cat: S f: c]\nedges 6\n",
    },
];

#[test]
fn choices_are_made(rt: HostRuntime) -> Result<(), Fail> {
    assert_eq!(rt; first_other(&rt, rt.alloc(), SESSIONS)?, None);
    Ok(())
}

/// Analyses stand in the order of their variants.
const ORDERS: &[Row] = &[
    // a right side changes slower than the equations
    Row {
        grammar: b"Rule S -> { A_1 / A_2 }: { <S e> = x / <S e> = y } <S one> = <A_1 lex> <S two> = <A_2 lex>",
        lexicon: PLAIN,
        input: b":features on\n:count on\na\n",
        code: 0,
        written: b"features on\ncount on\nanalyses 4\n1 (S (A a))\n  [cat: S e: x one: a]\n2 (S (A a))\n  [cat: S e: y one: a]\n3 (S (A a))\n  [cat: S e: x two: a]\n4 (S (A a))\n  [cat: S e: y two: a]\nedges 9\n",
    },
    // an option has its alternatives, and then the empty list
    Row {
        grammar: b"Rule S -> C (E_1 / E_2): <S one> = <E_1 cat> <S two> = <E_2 cat>\nRule E ->",
        lexicon: b"\\w c\n\\c C",
        input: b":features on\n:count on\nc\n",
        code: 0,
        written: b"features on\ncount on\nanalyses 3\n1 (S (C c) (E))\n  [cat: S one: E]\n2 (S (C c) (E))\n  [cat: S two: E]\n3 (S (C c))\n  [cat: S]\nedges 10\n",
    },
    // the first of an entry's features changes slowest
    Row {
        grammar: WHOLE,
        lexicon: b"\\w a\n\\c A\n\\f { <f> = p / <f> = q } { <g> = r / <g> = s }",
        input: b":features on\n:count on\na\n",
        code: 0,
        written: b"features on\ncount on\nanalyses 4\n1 (S (A a))\n  [cat: S is: [cat: A f: p g: r lex: a]]\n2 (S (A a))\n  [cat: S is: [cat: A f: p g: s lex: a]]\n3 (S (A a))\n  [cat: S is: [cat: A f: q g: r lex: a]]\n4 (S (A a))\n  [cat: S is: [cat: A f: q g: s lex: a]]\nedges 9\n",
    },
    // a template's name stands for its body, in a place of its own
    Row {
        grammar: b"Let T be { <f> = p / <f> = q }\nRule S -> A: <S is> = <A>",
        lexicon: b"\\w a\n\\c A\n\\f { <g> = r / <g> = s } T",
        input: b":features on\na\n",
        code: 0,
        written: b"features on\nanalyses 4\n1 (S (A a))\n  [cat: S is: [cat: A f: p g: r lex: a]]\n2 (S (A a))\n  [cat: S is: [cat: A f: q g: r lex: a]]\n3 (S (A a))\n  [cat: S is: [cat: A f: p g: s lex: a]]\n4 (S (A a))\n  [cat: S is: [cat: A f: q g: s lex: a]]\n",
    },
    // templates that name earlier ones, in braces too
    Row {
        grammar: b"Let Third be <agr per> = third.\nlet Sg3 be <agr num> = sg Third\nLet Pl BE <agr num> = pl .\nRule S -> A: <S is> = <A>",
        lexicon: b"\\w a\n\\c A\n\\f Sg3\n\\w b\n\\c A\n\\f { Sg3 / Pl }\n  <x> = y",
        input: b":features on\n:count on\na\nb\n",
        code: 0,
        written: b"features on\ncount on\nanalyses 1\n1 (S (A a))\n  [cat: S is: [agr: [num: sg per: third] cat: A lex: a]]\nedges 3\nanalyses 2\n1 (S (A b))\n  [cat: S is: [agr: [num: sg per: third] cat: A lex: b x: y]]\n2 (S (A b))\n  [cat: S is: [agr: [num: pl] cat: A lex: b x: y]]\nedges 5\n",
    },
    // sixteen levels, of parentheses, of braces, in a template and in an entry
    Row {
        grammar: b"Let T be {{{{{{{{{{{{{{{{<t> = u}}}}}}}}}}}}}}}}\nRule S -> ((((((((((((((((A)))))))))))))))): {{{{{{{{{{{{{{{{<S is> = <A>}}}}}}}}}}}}}}}}",
        lexicon: b"\\w a\n\\c A\n\\f {{{{{{{{{{{{{{{{T}}}}}}}}}}}}}}}}",
        input: b":features on\n:count on\na\n",
        code: 0,
        written: b"features on\ncount on\nanalyses 1\n1 (S (A a))\n  [cat: S is: [cat: A lex: a t: u]]\nedges 19\n",
    },
];

#[test]
fn variants_are_in_order(rt: HostRuntime) -> Result<(), Fail> {
    assert_eq!(rt; first_other(&rt, rt.alloc(), ORDERS)?, None);
    Ok(())
}

/// Grammars, and why they are refused.
const BAD_GRAMMARS: &[(&[u8], &str)] = &[
    (
        b"Let A be B Let B be <x> = y Rule S -> C",
        " 1:10: unknown name: B",
    ),
    (b"Let A be A Rule S -> C", " 1:10: unknown name: A"),
    (
        b"Let A be <x> = y Let B be { A / <x> = z C } Rule S -> D",
        " 1:41: unknown name: C",
    ),
    (b"Let A be <x> = y", ": no rules"),
    (
        b"Let A be <x> = y Let A be <x> = z",
        " 1:22: name given twice: A",
    ),
    (b"Let A be <x> = y Let a be A", ": no rules"),
    (b"Let A", " 1:6: expected 'be'"),
    (b"Let Rule be <x> = y", " 1:5: expected a name"),
    (b"Let A be .", " 1:10: expected an equation or a name"),
    (
        b"Let A be { <x> = y / }",
        " 1:22: expected an equation or a name",
    ),
    (b"Let A be { <x> = y", " 1:19: expected '}'"),
    (b"Let A be {{{{{{{{{{{{{{{{{", " 1:26: too deep"),
    (b"Rule S -> ( A", " 1:14: expected ')'"),
    (b"Rule S -> ( A / )", " 1:17: expected a symbol"),
    (b"Rule S -> { A )", " 1:15: expected '}'"),
    (b"Rule S -> A {", " 1:14: expected a symbol"),
    (b"Rule S -> A { <A f> = x", " 1:24: expected '}'"),
    (b"Rule S -> A: { B }", " 1:16: expected an equation"),
    (b"Rule S -> (((((((((((((((((", " 1:27: too deep"),
    (b"Rule S -> ({({({({({({({({({", " 1:27: too deep"),
    (b"Rule S -> A {{{{{{{{{{{{{{{{{<S f> = x", " 1:29: too deep"),
    (b"Rule S -> A: {{{{{{{{{{{{{{{{{", " 1:30: too deep"),
    (
        b"Rule S -> (A B C D E F G H) {I J K L M N O P / Q R S T U V W X} A B C D E F G H (I",
        " 1:82: too many symbols",
    ),
    (
        b"Rule S -> { (A) (A) (A) (A) (A) (A) (A) (A) / A }",
        " 1: more than 256 variants (257)",
    ),
    (b"Define a as <out f> = <in f>", " 1:1: not built yet"),
];

/// Lexicons, and why they are refused beside a grammar with the template Sg.
const BAD_LEXICONS: &[(&[u8], &str)] = &[
    (b"\\w a\n\\c A\n\\f Foo", " 3:4: unknown name: Foo"),
    (b"\\w a\n\\c A\n\\f { Sg / sg }", " 3:11: unknown name: sg"),
    (
        b"\\w a\n\\c A\n\\f Let",
        " 3:4: expected an equation or a name",
    ),
    (
        b"\\w a\n\\c A\n\\f { Let }",
        " 3:6: expected an equation or a name",
    ),
    (b"\\w a\n\\c A\n\\f { Sg Let }", " 3:9: expected '}'"),
    (
        b"\\w a\n\\c A\n\\f {}",
        " 3:5: expected an equation or a name",
    ),
    (b"\\w a\n\\c A\n\\f { Sg\n  / Sg", " 4:7: expected '}'"),
    (b"\\w a\n\\c A\n\\f {{{{{{{{{{{{{{{{{", " 3:20: too deep"),
    (
        b"\\w a\n\\c A\n\\f Sg Sg.",
        " 3:9: expected an equation or a name",
    ),
];

#[test]
fn choices_are_refused(rt: HostRuntime) -> Result<(), Fail> {
    let alloc = rt.alloc();
    for (grammar, why) in BAD_GRAMMARS {
        let setting = well(grammar, PLAIN, b"a\n");
        assert!(rt; refuses(&rt, alloc, setting, "grammar", 2, why)?, "{why}");
    }
    for (lexicon, why) in BAD_LEXICONS {
        let setting = well(b"Let Sg be <n> = sg Rule S -> A", lexicon, b"a\n");
        assert!(rt; refuses(&rt, alloc, setting, "lexicon", 3, why)?, "{why}");
    }
    Ok(())
}

/// A text, one that is repeated so many times behind it, one behind that; the status, and what is written.
type Counted = (
    &'static str,
    &'static str,
    usize,
    &'static str,
    u8,
    &'static str,
);

const ONE: &str = "analyses 1\n1 (S (A a))\n";

/// Grammars whose rule has the first of its variants alone, but for the two that leave equations out.
const RULES: &[Counted] = &[
    (
        "Rule S -> A: <S f> = x {<S f> = x",
        " / <S f> = y",
        255,
        "}",
        0,
        ONE,
    ),
    (
        "Rule S -> A: <S f> = x {<S f> = x",
        " / <S f> = y",
        256,
        "}",
        2,
        "error: grammar 1: more than 256 variants (257)\n",
    ),
    (
        "Rule S -> A: <S f> = x",
        " {<S f> = x / <S f> = y}",
        8,
        "",
        0,
        ONE,
    ),
    (
        "Rule S -> A: <S f> = x",
        " {<S f> = x / <S f> = y}",
        31,
        "",
        2,
        "error: grammar 1: more than 256 variants (2147483648)\n",
    ),
    (
        "\nRule S -> A: <S f> = x",
        " {<S f> = x / <S f> = y}",
        100,
        "",
        2,
        "error: grammar 2: more than 256 variants (4294967296)\n",
    ),
    // what a variant drops is counted
    ("Rule S -> (A): <S f> = x", " <A f> = x", 1023, "", 0, ONE),
    (
        "Rule S -> (A): <S f> = x",
        " <A f> = x",
        1024,
        "",
        2,
        "error: grammar 1: more than 1024 equations (1025)\n",
    ),
    // the greatest of alternatives
    (
        "Rule S -> A: {<S f> = y <S g> = y / <S f> = x}",
        " <S f> = x",
        1022,
        "",
        0,
        ONE,
    ),
    (
        "Rule S -> A: {<S f> = y <S g> = y / <S f> = x}",
        " <S f> = x",
        1023,
        "",
        2,
        "error: grammar 1: more than 1024 equations (1025)\n",
    ),
];

/// Each template has twice as many equations as the one before it, from 1 to 2^25; Q has two variants.
const DOUBLES: &[u8] =
    b"Let Q be {<q> = x / <q> = y}\nLet A be <f> = x Let B be A A Let C be B B Let D be C C Let E be D D Let F be E E Let G be F F Let H be G G Let I be H H Let J be I I Let K be J J Let L be K K Let M be L L Let N be M M Let O be N N Let P be O O Let R be P P Let S be R R Let T be S S Let U be T T Let V be U U Let W be V V Let X be W W Let Y be X X Let Z be Y Y Let ZZ be Z Z\nRule S -> A";

/// Lexicons of one entry.
const ENTRIES: &[Counted] = &[
    ("\\w a\n\\c A\n\\f <q> = x", " Q", 8, "", 0, ONE),
    (
        "\\w a\n\\c A\n\\f <q> = x",
        " Q",
        9,
        "",
        3,
        "error: lexicon 1: more than 256 variants (512)\n",
    ),
    (
        "\n\\w a\n\\c A\n\\f <q> = x",
        " Q",
        33,
        "",
        3,
        "error: lexicon 2: more than 256 variants (4294967296)\n",
    ),
    // what is unknown comes first, and too many variants before too many equations
    (
        "\\w a\n\\c A\n\\f ZZ",
        " Q",
        9,
        " Foo",
        3,
        "error: lexicon 3:25: unknown name: Foo\n",
    ),
    (
        "\\w a\n\\c A\n\\f ZZ",
        " Q",
        9,
        "",
        3,
        "error: lexicon 1: more than 256 variants (512)\n",
    ),
    ("\\w a\n\\c A\n\\f K", "", 0, "", 0, ONE),
    (
        "\\w a\n\\c A\n\\f K",
        " A",
        1,
        "",
        3,
        "error: lexicon 1: more than 1024 equations (1025)\n",
    ),
    (
        "\\w a\n\\c A\n\\f",
        " ZZ",
        127,
        "",
        3,
        "error: lexicon 1: more than 1024 equations (4261412864)\n",
    ),
    (
        "\\w a\n\\c A\n\\f",
        " ZZ",
        200,
        "",
        3,
        "error: lexicon 1: more than 1024 equations (4294967296)\n",
    ),
];

/// Whether the rule or the entry, as its text says, gives what is written behind it.
fn counts<R: Threads + Wait + Sync>(
    rt: &R,
    alloc: Global,
    counted: &Counted,
    is_rule: bool,
) -> Result<bool, Fail> {
    let (front, text, count, last, code, written) = counted;
    let file = format!(in alloc; "{front}{}", repeated(alloc, text, *count, last)?.as_str())?;
    let setting = if is_rule {
        well(file.as_bytes(), PLAIN, b"a\n")
    } else {
        well(DOUBLES, file.as_bytes(), b"a\n")
    };
    gives(rt, alloc, FILES, setting, *code, written.as_bytes())
}

#[test]
fn rules_are_counted(rt: HostRuntime) -> Result<(), Fail> {
    let alloc = rt.alloc();
    for (k, counted) in RULES.iter().enumerate() {
        assert!(rt; counts(&rt, alloc, counted, true)?, "row {k}");
    }
    Ok(())
}

#[test]
fn entries_are_counted(rt: HostRuntime) -> Result<(), Fail> {
    let alloc = rt.alloc();
    for (k, counted) in ENTRIES.iter().enumerate() {
        assert!(rt; counts(&rt, alloc, counted, false)?, "row {k}");
    }
    Ok(())
}
