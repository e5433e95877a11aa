//! Tests of the public calls, and worked examples in tables.
use super::*;
use patr_grammar::{Element, PathText, TermText};
use patr_text::{Fault, Id, Symbols};
use std::alloc::Global;
use std::process::Abort;
use std::test::Fail;

/// The text of a number, where the table has one.
fn text(symbols: &Symbols, id: Id) -> &str {
    if id.0 < symbols.len() {
        symbols.text(id)
    } else {
        "?"
    }
}

/// A path of attributes in angle brackets.
fn shown_path(alloc: Global, symbols: &Symbols, path: &PathText) -> Result<String, Fail> {
    let mut shown = String::new(alloc);
    for attribute in &path.attributes {
        if !shown.is_empty() {
            shown.push_str(" ")?;
        }
        shown.push_str(text(symbols, *attribute))?;
    }
    Ok(format!(in alloc; "<{shown}>")?)
}

/// Puts a feature behind a text: of a name with its place.
fn push_feature(
    alloc: Global,
    symbols: &Symbols,
    feature: &Element,
    shown: &mut String,
) -> Result<(), Fail> {
    match feature {
        Element::Equation(equation) => {
            shown.push_str(&shown_path(alloc, symbols, &equation.left)?)?;
            shown.push_str(" = ")?;
            match &equation.right {
                TermText::Atom(atom) => shown.push_str(text(symbols, *atom))?,
                TermText::Path(path) => shown.push_str(&shown_path(alloc, symbols, path)?)?,
            }
        }
        Element::Name { name, line, column } => {
            shown.push_str(text(symbols, *name))?;
            shown.push_str(&format!(in alloc; "@{line}:{column}")?)?;
        }
        Element::OneOf(alternatives) => {
            shown.push_str("{")?;
            for alternative in alternatives {
                shown.push_str(" /")?;
                for feature in alternative {
                    shown.push_str(" ")?;
                    push_feature(alloc, symbols, feature, shown)?;
                }
            }
            shown.push_str(" }")?;
        }
    }
    Ok(())
}

/// Features, with a space before each.
fn shown_features(alloc: Global, symbols: &Symbols, features: &[Element]) -> Result<String, Fail> {
    let mut shown = String::new(alloc);
    for feature in features {
        shown.push_str(" ")?;
        push_feature(alloc, symbols, feature, &mut shown)?;
    }
    Ok(shown)
}

/// Entries, each with its line.
fn shown_entries(alloc: Global, symbols: &Symbols, entries: &[Entry]) -> Result<String, Fail> {
    let mut shown = String::new(alloc);
    for entry in entries {
        let word = text(symbols, entry.word);
        let category = text(symbols, entry.category);
        shown.push_str(&format!(in alloc; "{} {word}={category}", entry.line)?)?;
        if let Some(gloss) = entry.gloss {
            let gloss = text(symbols, gloss);
            shown.push_str(&format!(in alloc; "'{gloss}'")?)?;
        }
        shown.push_str(&shown_features(alloc, symbols, &entry.features)?)?;
        shown.push_str("|")?;
    }
    Ok(shown)
}

/// The entries that are read, or why the bytes are refused.
fn shown<A: Abort>(rt: &A, alloc: Global, bytes: &[u8]) -> Result<String, Fail> {
    let mut symbols = Symbols::new(alloc)?;
    assert!(rt; symbols.len() < 100 && bytes.len() < 200);
    match read_lexicon(alloc, &mut symbols, bytes) {
        Ok(lexicon) => shown_entries(alloc, &symbols, lexicon.entries()),
        Err(Fault::Refused(cause)) => Ok(format!(in alloc; "{cause}")?),
        Err(Fault::Memory) => Ok(format!(in alloc; "no memory")?),
    }
}

/// Lexicons, and the entries that they stand for.
const READ: [(&[u8], &str); 34] = [
    (b"", ""),
    (b"; nothing\n\n \t\r\n  ; nothing else", ""),
    (b"\\w the\n\\c Det\n\\w dog\n\\c N\n", "1 the=Det|3 dog=N|"),
    (b"\\w dog\n\\c N\n\\w dog\n\\c V", "1 dog=N|3 dog=V|"),
    (b"\\w a\r\n\\c A\r\n", "1 a=A|"),
    (b"\\w\n  a \r\n\n\\c\n\tA\n\\g", "1 a=A|"),
    (b"\\w a\n\\c A\n\\g not  a\tb \r\n", "1 a=A'not  a\tb'|"),
    (
        b"\\w a\n\\c A\n\\g\n one\n; no\n\n two;2\r\n\t\n",
        "1 a=A'one two;2'|",
    ),
    (b"\\w a\n\\c X Y\n\\c\n\\c A\n", "1 a=A|"),
    (b"\\w a\n\\g one\n\\c A\n\\g two", "1 a=A'two'|"),
    (b"\\w a\n\\g one\n\\c A\n\\g ", "1 a=A|"),
    (b"\\g-x y\n more\n\\\n\\w a\n\\c A", "4 a=A|"),
    (b"\\w a\n\\wx b\n c\n\\c A\n\\cc d\n e", "1 a=A|"),
    (b"\\w\n; b\n\ta\n\\c A;B", "1 a=A;B|"),
    (b"\\w a\n\\c\n A\n \t; \\c B", "1 a=A|"),
    (b"\\w a\rb\n\\c A", "1 a\rb=A|"),
    (b"\\w a\n\\c A\n\\f\n\\f ; x\n; y\n", "1 a=A|"),
    (b"\\w a\n\\c A\n\\f ; \x01\n ;\x7f\n", "1 a=A|"),
    (b" ;\x01\n\\x\n;\x02\n\\w a\n\\c A\n\t;\x03", "4 a=A|"),
    (b"\\w \xc3\xa9t\xc3\xa9\n\\c \\w", "1 \u{e9}t\u{e9}=\\w|"),
    (b"\\w\ta\t\n\\c\tA", "1 a=A|"),
    (b"\\w ;\n\\c ;", "1 ;=;|"),
    (b"\\w a\n\\g g\n\\c A\n\\w b\n\\c A\n", "1 a=A'g'|4 b=A|"),
    (
        b"\\w a\n\\c A\n\\w b\n\\c A\n\\x c\n\\g a",
        "1 a=A|3 b=A'a'|",
    ),
    (b"\\w a\n\\c A\n\\f <f> = x", "1 a=A <f> = x|"),
    (b"\\w a\n\\f  Sg3\n\\c A", "1 a=A Sg3@2:5|"),
    (b"\\w a\n\\c A\n\\f\n\\f x\n\\f y", "1 a=A x@4:4 y@5:4|"),
    (
        b"\\w a\n\\c A\n\\f\xc3\xa9 x\n\\f \xc3\xa9",
        "1 a=A \u{e9}@4:4|",
    ),
    (
        b"\\w a\n\\c A\n\\f { <f> = p / T } U",
        "1 a=A { / <f> = p / T@3:16 } U@3:20|",
    ),
    (
        b"\\w a\n\\c A\n\\f <x y> = ; not\n; this\n\\f z\n <u>\n=v",
        "1 a=A <x y> = z <u> = v|",
    ),
    (
        b"\\w a\n\\f <agr num> = sg\n\\c A\n\\g g\n\\f <rule> = <subj head>\n\\w b\n\\c B\n",
        "1 a=A'g' <agr num> = sg <rule> = <subj head>|6 b=B|",
    ),
    (
        b"\\w a\n\\c A\n\\f <f>\n\\x = y\n z\n\\f = x;y",
        "1 a=A <f> = x|",
    ),
    (
        b"\\w a\n\\c A\n\\f <\xc3\xa9> = \xc3\xa9\xc3\xa9\r\n",
        "1 a=A <\u{e9}> = \u{e9}\u{e9}|",
    ),
    (
        b"\\w a\n\\c A\n\\f < a a a a a a a a a a a a a a a a a a a a a a a a a a a a a a a a> = x",
        "1 a=A <a a a a a a a a a a a a a a a a a a a a a a a a a a a a a a a a> = x|",
    ),
];

#[test]
fn entries_are_read(rt: HostRuntime) -> Result<(), Fail> {
    for (bytes, want) in READ {
        assert_eq!(rt; shown(&rt, rt.alloc(), bytes)?.as_str(), want);
    }
    Ok(())
}

/// Lexicons that stand for no entries, and why.
const REFUSED: [(&[u8], &str); 46] = [
    (b"\\c \x01\xff", "lexicon: not UTF-8 at byte 4"),
    (b"\\w a\n\\g b\n\xff", "lexicon: not UTF-8 at byte 10"),
    (b"\\w\n\\c \x01", "lexicon 2:4: bad character"),
    (b"\\w a\x0c\n\\c A", "lexicon 1:5: bad character"),
    (b"\\\x01", "lexicon 1:2: bad character"),
    (b"\\w a\n\\c A;\x7f", "lexicon 2:6: bad character"),
    (b"\\x y ;\x01", "lexicon 1:7: bad character"),
    (b"\\x\ny ;\x01", "lexicon 2:4: bad character"),
    (b"a ;\x01", "lexicon 1:4: bad character"),
    (b"\\w a\n\\f x\n ;\n y\x01;", "lexicon 4:3: bad character"),
    (b"\\w a\n\\f ;\x01\n\\g ;\x01", "lexicon 3:5: bad character"),
    (b"a", "lexicon 1: no word"),
    (b"\n; b\n\\c A\n\\w a\n\\c A", "lexicon 3: no word"),
    (b"\\f\n\\w a\n\\c A", "lexicon 1: no word"),
    (b"\\x a\n b\n\\g c", "lexicon 3: no word"),
    (b"\\x a\n\\g c\n\\w", "lexicon 2: no word"),
    (b"\\w\n\\c A", "lexicon 1: no word"),
    (b"\\w \t\r\n;a\n\\f x\n", "lexicon 1: no word"),
    (b"\\w a\n\\c A\n\\w", "lexicon 3: no word"),
    (b"\\w a b\n\\c A", "lexicon 1: several words"),
    (b"\\w a\n\tb\n\\f x", "lexicon 1: several words"),
    (b"\\w a\tb c", "lexicon 1: several words"),
    (b"\\w a", "lexicon 1: no category"),
    (b"\\w a\n\\c A B", "lexicon 1: no category"),
    (b"\\w a\n\\c A\n \\g b", "lexicon 1: no category"),
    (b"\\w a\n\\c A\n\\c\n\\f x", "lexicon 1: no category"),
    (b"\n\\w a\n\\w b\n\\c B", "lexicon 2: no category"),
    (b"\\w a\n\\f =\n", "lexicon 1: no category"),
    (
        b"\\w a\n\\c A\n\\f <x> = y {",
        "lexicon 3:13: expected an equation or a name",
    ),
    (
        b"\\w a\n\\c A\n\\f { x /\n\\f y\n\\w b",
        "lexicon 4:5: expected '}'",
    ),
    (
        b"\\w a\n\\c A\n\\f {{{{{{{{{{{{{{{{{",
        "lexicon 3:20: too deep",
    ),
    (b"\\w a\n\\c A\n\\f x\n\\w b c", "lexicon 4: several words"),
    (
        b"\\w a\n\\c A\n\\f ; x\n\n\t. y",
        "lexicon 5:2: expected an equation or a name",
    ),
    (
        b"\\w a\n\\c A\n\\f Let",
        "lexicon 3:4: expected an equation or a name",
    ),
    (
        b"\\w a\n\\c A\n\\f =\n\\w",
        "lexicon 3:4: expected an equation or a name",
    ),
    (
        b"\\w a\n\\c A\n\\f <>",
        "lexicon 3:5: expected an attribute",
    ),
    (b"\\w a\n\\c A\n\\f <a\n b = c", "lexicon 4:4: expected '>'"),
    (b"\\w a\n\\c A\n\\f <a> b", "lexicon 3:8: expected '='"),
    (
        b"\\w a\n\\c A\n\\f <x> = {",
        "lexicon 3:10: expected a path or an atom",
    ),
    (
        b"\\w a\n\\c A\n\\f <x> =",
        "lexicon 3:9: expected a path or an atom",
    ),
    (
        b"\\w a\r\n\\c A\r\n\\f <x> =\r\n",
        "lexicon 3:10: expected a path or an atom",
    ),
    (
        b"\\w a\n\\c A\n\\f <x> =\n ; x\n\\g y\n",
        "lexicon 3:9: expected a path or an atom",
    ),
    (
        b"\\w a\n\\c A\n\\f <x> =\n ; x\n\\f\n\n",
        "lexicon 5:3: expected a path or an atom",
    ),
    (
        b"\\w a\n\\c A\n\\f <x> = ; x\n",
        "lexicon 3:13: expected a path or an atom",
    ),
    (
        b"\\w a\n\\c A\n\\f < a a a a a a a a a a a a a a a a a a a a a a a a a a a a a a a a a> = x",
        "lexicon 3:70: path too long",
    ),
    (b"\\w a b\n\\c A\n\\w", "lexicon 1: several words"),
];

#[test]
fn the_first_fault_is_told(rt: HostRuntime) -> Result<(), Fail> {
    for (bytes, want) in REFUSED {
        assert_eq!(rt; shown(&rt, rt.alloc(), bytes)?.as_str(), want);
    }
    Ok(())
}

/// The numbers of the entries of a word.
fn numbers_of<A: Abort>(rt: &A, alloc: Global, bytes: &[u8], word: &str) -> Result<String, Fail> {
    let mut symbols = Symbols::new(alloc)?;
    assert!(rt; symbols.len() < 100 && bytes.len() < 100);
    let mut shown = String::new(alloc);
    if let Ok(lexicon) = read_lexicon(alloc, &mut symbols, bytes) {
        assert!(rt; symbols.len() < 1000);
        let word = symbols.intern(word)?;
        for number in lexicon.entries_of(word) {
            shown.push_str(&format!(in alloc; "{number};")?)?;
        }
    }
    Ok(shown)
}

/// Words, and the numbers of their entries among those of the words a, b and a.
const NUMBERS: [(&str, &str); 4] = [("a", "0;2;"), ("b", "1;"), ("A", ""), ("cat", "")];

#[test]
fn entries_are_found_by_their_words(rt: HostRuntime) -> Result<(), Fail> {
    let bytes = b"\\w a\n\\c A\n\\w b\n\\c a\n\\w a\n\\c B";
    for (word, want) in NUMBERS {
        assert_eq!(rt; numbers_of(&rt, rt.alloc(), bytes, word)?.as_str(), want);
    }
    Ok(())
}
