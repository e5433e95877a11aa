//! Devices that fail once, or move a byte at a time; an input, files and lines that are too long.

use crate::devices::{Setting, gives, well};
use std::alloc::Global;
use std::test::Fail;

const FILES: &[&str] = &["g", "l"];

const GRAMMAR: &[u8] = b"Rule S -> A";

const LEXICON: &[u8] = b"\\w a\n\\c A";

const INPUT: &[u8] = b"a\na\n";

const REPLIES: &[u8] = b"analyses 1\n1 (S (A a))\nanalyses 1\n1 (S (A a))\n";

/// How many bytes a call moves at most, which load, read and write or flush fails (0: none), the status, and how
/// many bytes of the replies are written. The second reply's write is the third call of the sink.
const FAILURES: [(usize, u64, u64, u64, u8, usize); 10] = [
    (4096, 1, 0, 0, 4, 0),
    (4096, 2, 0, 0, 4, 0),
    (4096, 0, 1, 0, 4, 0),
    (4096, 0, 2, 0, 4, 46),
    (4096, 0, 0, 1, 5, 0),
    (4096, 0, 0, 2, 5, 23),
    (4096, 0, 0, 3, 5, 23),
    (4096, 0, 0, 4, 5, 46),
    (1, 0, 0, 0, 0, 46),
    (1, 0, 0, 5, 5, 4),
];

#[test]
fn each_device_fails_once(rt: HostRuntime) -> Result<(), Fail> {
    let alloc = rt.alloc();
    for (most, fail_load, fail_read, fail_write, code, count) in FAILURES {
        let setting = Setting {
            grammar: GRAMMAR,
            lexicon: LEXICON,
            input: INPUT,
            most,
            fail_load,
            fail_read,
            fail_write,
        };
        let written = REPLIES.get(..count).unwrap_or(b"");
        assert!(rt;
            gives(&rt, alloc, FILES, setting, code, written)?,
            "{most} {fail_load} {fail_read} {fail_write}"
        );
    }
    Ok(())
}

/// This text, and then as many of this byte.
fn filled(alloc: Global, text: &[u8], byte: u8, count: usize) -> Result<Vec<u8>, Fail> {
    let mut bytes = Vec::from_slice(alloc, text)?;
    for _ in 0..count {
        bytes.push(byte)?;
    }
    Ok(bytes)
}

/// So many bytes, of which each 4,096 are this block.
fn of_blocks(alloc: Global, block: &[u8; 4096], count: usize) -> Result<Vec<u8>, Fail> {
    let mut bytes = Vec::new(alloc);
    for _ in 0..count / 4096 {
        bytes.extend_from_slice(block)?;
    }
    bytes.extend_from_slice(&block[..count % 4096])?;
    Ok(bytes)
}

/// Whether the file is the grammar, how many bytes it has, the status, and what is written.
const LONG_FILES: &[(bool, usize, u8, &[u8])] = &[
    (true, 4_194_304, 2, b"error: grammar: no rules\n"),
    (
        true,
        4_194_305,
        2,
        b"error: grammar: more than 4194304 bytes\n",
    ),
    (
        false,
        16_777_217,
        3,
        b"error: lexicon: more than 16777216 bytes\n",
    ),
];

#[test]
fn long_files_are_refused(rt: HostRuntime) -> Result<(), Fail> {
    let alloc = rt.alloc();
    // lines of 4,095 spaces
    let mut line = [b' '; 4096];
    line[4095] = b'\n';
    for (is_grammar, count, code, written) in LONG_FILES {
        let long = of_blocks(alloc, &line, *count)?;
        let setting = if *is_grammar {
            well(&long, LEXICON, INPUT)
        } else {
            well(GRAMMAR, &long, INPUT)
        };
        assert!(rt;
            gives(&rt, alloc, FILES, setting, *code, written)?,
            "{count}"
        );
    }
    Ok(())
}

#[test]
fn long_inputs_are_refused(rt: HostRuntime) -> Result<(), Fail> {
    let alloc = rt.alloc();
    let input = of_blocks(alloc, &[b'a'; 4096], 16_777_217)?;
    let setting = well(GRAMMAR, LEXICON, &input);
    let written = b"error: input longer than 16777216 bytes\n";
    assert!(rt; gives(&rt, alloc, FILES, setting, 7, written)?);
    Ok(())
}

/// How many spaces stand behind the first letter, what ends the line, and what is written.
const LINES: [(usize, &[u8], &[u8]); 3] = [
    (4095, b"\r\n", b"analyses 1\n1 (S (A a))\n"),
    (4096, b"", b"error: line too long\n"),
    (
        4096,
        b"\na",
        b"error: line too long\nanalyses 1\n1 (S (A a))\n",
    ),
];

#[test]
fn long_lines_are_refused(rt: HostRuntime) -> Result<(), Fail> {
    let alloc = rt.alloc();
    for (count, end, written) in LINES {
        let mut input = filled(alloc, b"a", b' ', count)?;
        input.extend_from_slice(end)?;
        let setting = well(GRAMMAR, LEXICON, &input);
        assert!(rt; gives(&rt, alloc, FILES, setting, 0, written)?, "{count}");
    }
    Ok(())
}
