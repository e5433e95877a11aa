//! Tests of the public calls, and worked examples in tables.
ghost use Rattle.std.specs.Prelude.{◌+◌, ◌-◌, ◌^◌, ◌<◌, length};

use super::*;
use patr_text::{Fault, Id, Symbols, tokens};
use std::alloc::Global;
use std::process::Abort;
use std::test::Fail;

/// Grammars, and what they are read as.
const GRAMMARS: [(&[u8], &str); 15] = [
    (
        b"Rule S -> NP VP\nRule NP -> Det N\nRule VP -> V\n",
        "1 S:S -> NP:NP VP:VP|2 NP:NP -> Det:Det N:N|3 VP:VP -> V:V|start S",
    ),
    (
        b"; notes\n\nRULE S_2 -> _1 a_ b_2c e_1_2",
        "3 S_2:S -> _1:_1 a_:a_ b_2c:b_2c e_1_2:e_1|start S",
    ),
    (
        b"Rule S ->. rule A -> b.c :.",
        "1 S:S ->|1 A:A -> b.c:b.c|start S",
    ),
    (
        b"Rule {first -> ( / x.1 :} S -> is\n:\n. ; end\nRule {} A_1 -> be",
        "1 {first -> ( / x.1 :} S:S -> is:is|4 A_1:A -> be:be|start S",
    ),
    (
        b"Rule A -> B B B B B B B B B B B B B B B B B B B B B B B B B B B B B B B B",
        "1 A:A -> B:B B:B B:B B:B B:B B:B B:B B:B B:B B:B B:B B:B B:B B:B B:B B:B B:B B:B B:B B:B B:B B:B B:B B:B B:B B:B B:B B:B B:B B:B B:B B:B|start A",
    ),
    (
        b"Rule S -> NP VP <NP agr> = <VP agr> <S subj> = <NP> <S f> = x",
        "1 S:S -> NP:NP VP:VP <NP agr> = <VP agr> <S subj> = <NP> <S f> = x|start S",
    ),
    (
        b"Rule S -> A_1: <A_1 is rule> = Let . Rule A ->",
        "1 S:S -> A_1:A <A_1 is rule> = Let|1 A:A ->|start S",
    ),
    (
        b"Rule S -> A <S a a a a a a a a a a a a a a a a a a a a a a a a a a a a a a a a> = x",
        "1 S:S -> A:A <S a a a a a a a a a a a a a a a a a a a a a a a a a a a a a a a a> = x|start S",
    ),
    (
        b"Rule S -> A { B / C } (D)",
        "1 S:S -> A:A { B:B / C:C } ( D:D )|start S",
    ),
    (
        b"Rule S -> (A_1 / {B / C D} E) F",
        "1 S:S -> ( A_1:A / { B:B / C:C D:D } E:E ) F:F|start S",
    ),
    (
        b"Rule S -> A {{<S f> = x}}",
        "1 S:S -> A:A { { <S f> = x } }|start S",
    ),
    (
        b"Rule NP -> (Det) N: <Det agr> = <N agr>",
        "1 NP:NP -> ( Det:Det ) N:N <Det agr> = <N agr>|start NP",
    ),
    (
        b"Rule S -> A { <A f> = x / <A f> = y <A g> = z } <S h> = <A>",
        "1 S:S -> A:A { <A f> = x / <A f> = y <A g> = z } <S h> = <A>|start S",
    ),
    (
        b"Rule S -> ({({({({({({({({ A })})})})})})})})",
        "1 S:S -> ( { ( { ( { ( { ( { ( { ( { ( { A:A } ) } ) } ) } ) } ) } ) } ) } )|start S",
    ),
    (
        b"Let Sg be <agr num> = sg.\nRule S -> A\nlet sg BE { Sg / <agr num> = pl } Sg.",
        "2 S:S -> A:A|1 Sg be <agr num> = sg|3 sg be { Sg@3:13 / <agr num> = pl } Sg@3:35|start S",
    ),
];

/// Bytes that stand for no grammar, and why.
const REFUSED: [(&[u8], &str); 42] = [
    (b"", "no rules"),
    (b"\n; Rule S -> NP\n", "no rules"),
    (b"Let A be <f> = x", "no rules"),
    (b"S -> NP", "1:1: expected a clause"),
    (b"Rule S -> NP\nRule NP", "2:8: expected '->'"),
    (b"Rule", "1:5: expected a symbol"),
    (b"Rule rule -> A", "1:6: expected a symbol"),
    (b"Rule {start S -> NP", "1:20: expected '}'"),
    (b"Rule {a {b} S -> A", "1:9: expected '}'"),
    (b"Rule S -> A )", "1:13: expected a clause"),
    (b"Rule S -> A . {", "1:15: expected a clause"),
    (b"Rule S -> A: Sg3", "1:14: expected a clause"),
    (b"\x01", "1:1: bad character"),
    (b"S\n -> \x7f", "2:5: bad character"),
    (b"\xff", "not UTF-8 at byte 0"),
    (b"Rule \xc3\xa9 -> \xc3", "not UTF-8 at byte 11"),
    (b"Rule S -> A define", "1:13: not built yet"),
    (b"Rule S -> A .\nParameter", "2:1: not built yet"),
    (
        b"Rule A -> B B B B B B B B B B B B B B B B B B B B B B B B B B B B B B B B B",
        "1:75: too many symbols",
    ),
    (
        b"Rule A -> {B / B} (B) B B B B B B B B B B B B B B B B B B B B B B B B B B B B B B",
        "1:81: too many symbols",
    ),
    (b"Rule S -> A <B f> = x", "1:14: not a constituent"),
    (b"Rule S -> A <S f> = <B>", "1:22: not a constituent"),
    (b"Rule Rule_1 -> A <Rule f> = x", "1:19: not a constituent"),
    (b"Rule S -> A <> = x", "1:14: expected a symbol"),
    (b"Rule S -> A : <S f", "1:19: expected '>'"),
    (b"Rule S -> A <S f> x", "1:19: expected '='"),
    (
        b"Rule S -> NP VP <NP agr> =",
        "1:27: expected a path or an atom",
    ),
    (
        b"Rule S -> A <S a a a a a a a a a a a a a a a a a a a a a a a a a a a a a a a a a> = x",
        "1:80: path too long",
    ),
    (b"Rule S -> ( A", "1:14: expected ')'"),
    (b"Rule S -> A {B / C", "1:19: expected '}'"),
    (b"Rule S -> A ( )", "1:15: expected a symbol"),
    (b"Rule S -> { A / }", "1:17: expected a symbol"),
    (b"Rule S -> A: { B }", "1:16: expected an equation"),
    (b"Rule S -> A { <A f> = x / }", "1:27: expected an equation"),
    (b"Rule S -> A { <A f> = x B }", "1:25: expected '}'"),
    (b"Rule S -> ({({({({({({({({(A", "1:27: too deep"),
    (b"Rule S -> A: {{{{{{{{{{{{{{{{{", "1:30: too deep"),
    (b"Let Rule be A", "1:5: expected a name"),
    (b"Let A <f> = x", "1:7: expected 'be'"),
    (b"Let A be", "1:9: expected an equation or a name"),
    (b"Let A be { B / }", "1:16: expected an equation or a name"),
    (b"Let A be B\nLet A be C", "2:5: name given twice: A"),
];

/// Features, and what they are read as, or why they are refused.
const FEATURES: [(&str, &str); 14] = [
    ("; none", ""),
    (
        "<agr num> = sg\n<rule> = <subj head>",
        " <agr num> = sg <rule> = <subj head>",
    ),
    (
        "Sg3 { A / B { <f> = x / C } }\n<f> = x",
        " Sg3@1:1 { A@1:7 / B@1:11 { <f> = x / C@1:25 } } <f> = x",
    ),
    (
        "<a a a a a a a a a a a a a a a a a a a a a a a a a a a a a a a a> = x",
        " <a a a a a a a a a a a a a a a a a a a a a a a a a a a a a a a a> = x",
    ),
    (
        "{{{{{{{{{{{{{{{{A}}}}}}}}}}}}}}}}",
        " { { { { { { { { { { { { { { { { A@1:17 } } } } } } } } } } } } } } } }",
    ),
    ("<f> = x\n <>", "2:3: expected an attribute"),
    ("<f = x", "1:4: expected '>'"),
    ("<f> x", "1:5: expected '='"),
    ("<f> = {", "1:7: expected a path or an atom"),
    ("<f> = x Rule", "1:9: expected an equation or a name"),
    ("{ A / <f> = x", "1:14: expected '}'"),
    ("{ }", "1:3: expected an equation or a name"),
    (
        "<a a a a a a a a a a a a a a a a a a a a a a a a a a a a a a a a a> = x",
        "1:66: path too long",
    ),
    ("{{{{{{{{{{{{{{{{{", "1:17: too deep"),
];

/// The text of a number, where the table has one.
fn text_of(symbols: &Symbols, id: Id) -> &str {
    if id.0 < symbols.len() {
        symbols.text(id)
    } else {
        "?"
    }
}

/// Puts a symbol and its category behind a text.
fn push_symbol(symbols: &Symbols, symbol: SymbolText, shown: &mut String) -> Result<(), Fail> {
    shown.push_str(text_of(symbols, symbol.symbol))?;
    shown.push_str(":")?;
    shown.push_str(text_of(symbols, symbol.category))?;
    Ok(())
}

/// What stands between alternatives, and before the first one nothing.
fn between(more: bool) -> &'static str {
    if more { " /" } else { "" }
}

/// Puts an item of a right side behind a text.
fn push_item(symbols: &Symbols, item: &Item, shown: &mut String) -> Result<(), Fail> {
    match item {
        Item::Symbol(symbol) => push_symbol(symbols, *symbol, shown),
        Item::Optional(alternatives) | Item::OneOf(alternatives) => {
            let optional = matches!(item, Item::Optional(_));
            shown.push_str(if optional { "(" } else { "{" })?;
            let mut more = false;
            for alternative in alternatives {
                shown.push_str(between(more))?;
                for item in alternative {
                    shown.push_str(" ")?;
                    push_item(symbols, item, shown)?;
                }
                more = true;
            }
            shown.push_str(if optional { " )" } else { " }" })?;
            Ok(())
        }
    }
}

/// Puts the items of a right side behind a text, each behind a space.
fn push_right(symbols: &Symbols, items: &[Item], shown: &mut String) -> Result<(), Fail> {
    for item in items {
        shown.push_str(" ")?;
        push_item(symbols, item, shown)?;
    }
    Ok(())
}

/// A rule's name in braces, where it has one.
fn shown_name(alloc: Global, symbols: &Symbols, name: &[Id]) -> Result<String, Fail> {
    let mut shown = String::new(alloc);
    for word in name {
        shown.push_str(if shown.is_empty() { "{" } else { " " })?;
        shown.push_str(text_of(symbols, *word))?;
    }
    if !shown.is_empty() {
        shown.push_str("} ")?;
    }
    Ok(shown)
}

/// A path in angle brackets.
fn shown_path(alloc: Global, symbols: &Symbols, path: &PathText) -> Result<String, Fail> {
    let mut shown = String::new(alloc);
    if let Some(head) = path.head {
        shown.push_str(text_of(symbols, head))?;
    }
    for attribute in &path.attributes {
        if !shown.is_empty() {
            shown.push_str(" ")?;
        }
        shown.push_str(text_of(symbols, *attribute))?;
    }
    Ok(format!(in alloc; "<{shown}>")?)
}

/// An equation.
fn shown_equation(
    alloc: Global,
    symbols: &Symbols,
    equation: &EquationText,
) -> Result<String, Fail> {
    let left = shown_path(alloc, symbols, &equation.left)?;
    let right = match &equation.right {
        TermText::Atom(atom) => String::from_str(alloc, text_of(symbols, *atom))?,
        TermText::Path(path) => shown_path(alloc, symbols, path)?,
    };
    Ok(format!(in alloc; "{left} = {right}")?)
}

/// Puts an element behind a text: of a name with its place.
fn push_element(
    alloc: Global,
    symbols: &Symbols,
    element: &Element,
    shown: &mut String,
) -> Result<(), Fail> {
    match element {
        Element::Equation(equation) => {
            shown.push_str(&shown_equation(alloc, symbols, equation)?)?;
        }
        Element::Name { name, line, column } => {
            shown.push_str(text_of(symbols, *name))?;
            shown.push_str(&format!(in alloc; "@{line}:{column}")?)?;
        }
        Element::OneOf(alternatives) => {
            shown.push_str("{")?;
            let mut more = false;
            for alternative in alternatives {
                shown.push_str(between(more))?;
                for element in alternative {
                    shown.push_str(" ")?;
                    push_element(alloc, symbols, element, shown)?;
                }
                more = true;
            }
            shown.push_str(" }")?;
        }
    }
    Ok(())
}

/// Puts elements behind a text, each behind a space.
fn push_elements(
    alloc: Global,
    symbols: &Symbols,
    elements: &[Element],
    shown: &mut String,
) -> Result<(), Fail> {
    for element in elements {
        shown.push_str(" ")?;
        push_element(alloc, symbols, element, shown)?;
    }
    Ok(())
}

/// The rules and the templates of a grammar, each with its line, and the start symbol.
fn shown_grammar(alloc: Global, symbols: &Symbols, grammar: &Grammar) -> Result<String, Fail> {
    let mut shown = String::new(alloc);
    for rule in &grammar.rules {
        let line = rule.line;
        let name = shown_name(alloc, symbols, &rule.name)?;
        shown.push_str(&format!(in alloc; "{line} {name}")?)?;
        push_symbol(symbols, rule.mother, &mut shown)?;
        shown.push_str(" ->")?;
        push_right(symbols, &rule.right, &mut shown)?;
        push_elements(alloc, symbols, &rule.equations, &mut shown)?;
        shown.push_str("|")?;
    }
    for template in &grammar.templates {
        let line = template.line;
        let name = text_of(symbols, template.name);
        shown.push_str(&format!(in alloc; "{line} {name} be")?)?;
        push_elements(alloc, symbols, &template.body, &mut shown)?;
        shown.push_str("|")?;
    }
    shown.push_str("start ")?;
    shown.push_str(text_of(symbols, grammar.start))?;
    Ok(shown)
}

/// A cause, and the name that was given twice.
fn shown_cause(alloc: Global, symbols: &Symbols, cause: GrammarCause) -> Result<String, Fail> {
    match cause {
        GrammarCause::TwiceNamed { name, .. } => {
            let text = text_of(symbols, name);
            Ok(format!(in alloc; "{cause}: {text}")?)
        }
        _ => Ok(format!(in alloc; "{cause}")?),
    }
}

/// What the bytes of a grammar are read as.
fn shown<A: Abort>(rt: &A, alloc: Global, bytes: &[u8]) -> Result<String, Fail> {
    let mut symbols = Symbols::new(alloc)?;
    assert!(rt; symbols.len() < 100 && bytes.len() < 200);
    match read_grammar(alloc, &mut symbols, bytes) {
        Ok(grammar) => shown_grammar(alloc, &symbols, &grammar),
        Err(Fault::Refused(cause)) => shown_cause(alloc, &symbols, cause),
        Err(Fault::Memory) => Ok(format!(in alloc; "no memory")?),
    }
}

/// The features that a text stands for.
fn features_of(
    alloc: Global,
    symbols: &mut Symbols,
    text: &str,
) -> Result<Vec<Element>, Fault<GrammarCause>>
    requires { length symbols.old + length text.now < 2 ^ 32 - 1 }
{
    let Ok(tokens) = tokens(alloc, text, 0, text.len(), 1, 1) else {
        return Err(Fault::Memory);
    };
    read_elements(alloc, symbols, text, &tokens)
}

/// What features are read as.
fn shown_features<A: Abort>(rt: &A, alloc: Global, text: &str) -> Result<String, Fail> {
    let mut symbols = Symbols::new(alloc)?;
    assert!(rt; symbols.len() < 100 && text.len() < 200);
    match features_of(alloc, &mut symbols, text) {
        Ok(elements) => {
            let mut shown = String::new(alloc);
            push_elements(alloc, &symbols, &elements, &mut shown)?;
            Ok(shown)
        }
        Err(Fault::Refused(cause)) => Ok(format!(in alloc; "{cause}")?),
        Err(Fault::Memory) => Ok(format!(in alloc; "no memory")?),
    }
}

#[test]
fn grammars_are_read_or_refused(rt: HostRuntime) -> Result<(), Fail> {
    let alloc = rt.alloc();
    for (bytes, wanted) in GRAMMARS {
        assert_eq!(rt; shown(&rt, alloc, bytes)?.as_str(), wanted);
    }
    for (bytes, wanted) in REFUSED {
        assert_eq!(rt; shown(&rt, alloc, bytes)?.as_str(), wanted);
    }
    Ok(())
}

#[test]
fn features_are_read_or_refused(rt: HostRuntime) -> Result<(), Fail> {
    let alloc = rt.alloc();
    for (text, wanted) in FEATURES {
        assert_eq!(rt; shown_features(&rt, alloc, text)?.as_str(), wanted);
    }
    Ok(())
}
