//! The entries of a word, as `:show` lists them.
use crate::rows::{Row, first_other};
use std::test::Fail;

/// Grammars and lexicons, and what `:show` answers.
const SHOWN: &[Row] = &[
    // each alternative is an entry of its own, whatever the switches are
    Row {
        grammar: b"Rule S -> N",
        lexicon: b"\\w sheep\n\\c N\n\\f { <agr num> = sg / <agr num> = pl }",
        input: b":features on\n:count on\n:show sheep\n",
        code: 0,
        written: b"features on\ncount on\nentries 2\n1 [agr: [num: sg] cat: N lex: sheep]\n2 [agr: [num: pl] cat: N lex: sheep]\n",
    },
    // a word whose entries have no solution is known
    Row {
        grammar: b"Rule S -> A",
        lexicon: b"\\w a\n\\c A\n\\f <f> = x <f> = y",
        input: b":show a\na\n",
        code: 0,
        written: b"entries 0\nanalyses 0\n",
    },
    // entries and their variants by number, without those that have no solution
    Row {
        grammar: b"Let Sg be <agr num> = sg\nRule S -> N",
        lexicon: b"\\w bass\n\\c N\n\\g a fish\n\\f Sg\n\\w dog\n\\c N\n\\w bass\n\\c A\n\\f { <f> = x <f> = y / <f> = z } <g> = <f>",
        input: b"\t:show \t bass\n:show dog\n:show cat\n:show bass dog\n:Show bass\n",
        code: 0,
        written: b"entries 2\n1 [agr: [num: sg] cat: N gloss: \"a fish\" lex: bass]\n2 [cat: A f: z g: z lex: bass]\nentries 1\n1 [cat: N lex: dog]\nerror: unknown word at 1: cat\nerror: bad command\nerror: bad command\n",
    },
    // a value that is reached by two paths has a number
    Row {
        grammar: b"Rule S -> R",
        lexicon: b"\\w \"r\n\\c R\n\\f <a> = <b> <b c> = x",
        input: b":show \"r\n",
        code: 0,
        written: b"entries 1\n1 [a: #1 [c: x] b: #1 cat: R lex: \"\\\"r\"]\n",
    },
];

#[test]
fn entries_are_shown(rt: HostRuntime) -> Result<(), Fail> {
    assert_eq!(rt; first_other(&rt, rt.alloc(), SHOWN)?, None);
    Ok(())
}
