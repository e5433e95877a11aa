//! Tests of the public calls, and worked examples in tables.
use super::*;
use std::alloc::Global;
use std::process::Abort;
use std::test::Fail;

/// The number that a small table gives to a text.
fn number_of(symbols: &mut Symbols, text: &str) -> Option<u32> {
    if symbols.len() > 100 {
        return None;
    }
    match symbols.intern(text) {
        Ok(id) => Some(id.0),
        Err(_) => None,
    }
}

/// The text of a number, where a table has one.
fn text_of(symbols: &Symbols, number: u32) -> Option<&str> {
    if number < symbols.len() {
        Some(symbols.text(Id(number)))
    } else {
        None
    }
}

#[test]
fn a_text_has_one_number(rt: HostRuntime) -> Result<(), Fail> {
    let mut symbols = Symbols::new(rt.alloc())?;
    assert_eq!(rt; symbols.find("agr"), None);
    for (text, number) in [("0", 0), ("32", 32), ("out", 37), ("agr", 38), ("agr", 38)] {
        assert_eq!(rt; number_of(&mut symbols, text), Some(number), "at {text}");
        assert_eq!(rt; symbols.find(text), Some(Id(number)), "at {text}");
        assert_eq!(rt; text_of(&symbols, number), Some(text));
    }
    assert_eq!(rt; symbols.len(), 39);
    Ok(())
}

/// What the tokens of `text[start..]` are: each one's kind, place and slice.
fn shown<A: Abort>(
    rt: &A,
    alloc: Global,
    text: &str,
    start: usize,
    line: u32,
    column: u32,
) -> Result<String, Fail> {
    assert!(rt; text.is_char_boundary(start));
    assert!(rt; text.len() < 100 && line < 100 && column < 100);
    match tokens(alloc, text, start, text.len(), line, column) {
        Ok(read) => {
            let mut shown = String::new(alloc);
            for token in &read {
                let slice = &text[token.start..token.end];
                let place = format!(in alloc;
                    "{:?} {}:{} {slice}|",
                    token.kind, token.line, token.column
                )?;
                shown.push_str(&place)?;
            }
            Ok(shown)
        }
        Err(Fault::Refused(bad)) => Ok(format!(in alloc; "bad at {}:{}", bad.line, bad.column)?),
        Err(Fault::Memory) => Ok(format!(in alloc; "no memory")?),
    }
}

/// Texts, and what their tokens are from line 1 and column 1 on.
const TEXTS: [(&str, &str); 9] = [
    ("", ""),
    (
        "<a.b> = c.",
        "Less 1:1 <|Word 1:2 a.b|Greater 1:5 >|Equal 1:7 =|Word 1:9 c|Dot 1:10 .|",
    ),
    ("S->NP", "Word 1:1 S|Arrow 1:2 ->|Word 1:4 NP|"),
    (
        "{}()[]/:",
        "OpenBrace 1:1 {|CloseBrace 1:2 }|OpenParen 1:3 (|CloseParen 1:4 )|OpenBracket 1:5 [|CloseBracket 1:6 ]|Slash 1:7 /|Colon 1:8 :|",
    ),
    (
        "a..b - -",
        "Word 1:1 a|Dot 1:2 .|Dot 1:3 .|Word 1:4 b|Word 1:6 -|Word 1:8 -|",
    ),
    (
        "; a \x01 b\n\t\u{e9}\u{e9},_ x",
        "Word 2:2 \u{e9}\u{e9},_|Word 2:9 x|",
    ),
    ("a\r\n\n  b \x01", "bad at 3:5"),
    ("a ; b \x7f", "Word 1:1 a|"),
    ("\x7f", "bad at 1:1"),
];

#[test]
fn tokens_are_slices_of_the_text(rt: HostRuntime) -> Result<(), Fail> {
    for (text, want) in TEXTS {
        assert_eq!(rt;
            shown(&rt, rt.alloc(), text, 0, 1, 1)?.as_str(),
            want,
            "at {text}"
        );
    }
    Ok(())
}

#[test]
fn tokens_of_a_part_have_its_places(rt: HostRuntime) -> Result<(), Fail> {
    assert_eq!(rt;
        shown(&rt, rt.alloc(), "a: b\nc", 3, 7, 20)?.as_str(),
        "Word 7:20 b|Word 8:1 c|"
    );
    Ok(())
}
