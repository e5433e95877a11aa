//! Rules and features with choices, templates, and what is refused.
use super::*;
use patr_grammar::{Grammar, read_grammar};
use patr_text::{Fault, Symbols};
use std::alloc::Global;
use std::process::Abort;
use std::test::Fail;

/// Grammars; how many variants their first rule has, and how many equations the last of them has.
const RULES: [(&str, usize, usize); 3] = [
    ("Rule S -> NP VP <S head> = <VP head>", 1, 4),
    (
        "Rule S -> (NP) V <S head> = <NP head> { <S a> = x / <V a> = y }",
        4,
        3,
    ),
    ("Rule S -> { A / B { C / D } } E", 3, 4),
];

/// Grammars; how many variants their last template has, and how many equations the last of them has.
const TEMPLATES: [(&str, usize, usize); 3] = [
    ("Rule S -> A Let T be <a b> = x", 1, 1),
    (
        "Rule S -> A Let T be <a> = x { <b> = y / <c> = z } Let U be T <d> = <a>",
        2,
        3,
    ),
    (
        "Rule S -> A Let T be { <a> = x / <b> = y } Let U be { T / <c> = z } Let V be U T",
        6,
        2,
    ),
];

/// Grammars with an unknown name, and what refuses them.
const UNKNOWN: [(&str, &str); 2] = [
    ("Rule S -> A Let T be <a> = x U", "1:30: unknown name"),
    ("Rule S -> A Let T be { <a> = x / T }", "1:34: unknown name"),
];

/// Two alternatives.
const ALTERNATIVES: &str = "{ <S a> = x / <S b> = y } ";

/// What a text is read as.
fn read<A: Abort>(rt: &A, alloc: Global, text: &str) -> Result<Grammar, Fail> {
    let mut symbols = Symbols::new(alloc)?;
    assert!(rt; symbols.len() < 100 && text.len() < 1000);
    let Ok(grammar) = read_grammar(alloc, &mut symbols, text.as_bytes()) else {
        return Err(std::alloc::AllocError.into());
    };
    assert!(rt; !grammar.rules.is_empty());
    Ok(grammar)
}

/// The variants of the last template have these counts.
fn has_variants(
    alloc: Global,
    grammar: &Grammar,
    count: usize,
    equations: usize,
) -> Result<bool, Fail> {
    let (Ok(()), Ok(templates), Some(body)) = (
        check_templates(grammar),
        Templates::new(alloc, grammar),
        grammar.templates.last(),
    ) else {
        return Ok(false);
    };
    let Ok(variants) = templates.expand(alloc, &body.body, 7) else {
        return Ok(false);
    };
    let Some(last) = variants.last() else {
        return Ok(false);
    };
    Ok(variants.len() == count && last.len() == equations)
}

#[test]
fn variants_are_counted(rt: HostRuntime) -> Result<(), Fail> {
    let alloc = rt.alloc();
    for (text, count, equations) in RULES {
        let grammar = read(&rt, alloc, text)?;
        assert!(rt; !grammar.rules.is_empty());
        let Ok(variants) = expand_rule(alloc, &grammar, 0) else {
            return Err(std::alloc::AllocError.into());
        };
        assert_eq!(rt; variants.len(), count);
        if let Some(last) = variants.last() {
            assert_eq!(rt; last.equations.len(), equations);
        }
    }
    for (text, count, equations) in TEMPLATES {
        let grammar = read(&rt, alloc, text)?;
        assert!(rt; has_variants(alloc, &grammar, count, equations)?);
    }
    Ok(())
}

#[test]
fn features_are_expanded_by_one_call(rt: HostRuntime) -> Result<(), Fail> {
    let alloc = rt.alloc();
    let grammar = read(&rt, alloc, TEMPLATES[1].0)?;
    let Some(last) = grammar.templates.last() else {
        return Err(std::alloc::AllocError.into());
    };
    if let Ok(()) = check_templates(&grammar) {
        let Ok(variants) = expand_features(alloc, &grammar, &last.body, 7) else {
            return Err(std::alloc::AllocError.into());
        };
        assert_eq!(rt; variants.len(), 2);
    }
    Ok(())
}

#[test]
fn names_and_sizes_are_refused(rt: HostRuntime) -> Result<(), Fail> {
    let alloc = rt.alloc();
    for (text, wanted) in UNKNOWN {
        let grammar = read(&rt, alloc, text)?;
        let Err(cause) = check_templates(&grammar) else {
            return Err(std::alloc::AllocError.into());
        };
        assert_eq!(rt; format!(in alloc; "{cause}")?.as_str(), wanted);
    }
    let mut text = format!(in alloc; "Rule S -> A ")?;
    for _ in 0..9 {
        text.push_str(ALTERNATIVES)?;
    }
    let grammar = read(&rt, alloc, text.as_str())?;
    assert!(rt; !grammar.rules.is_empty());
    let Err(Fault::Refused(cause)) = expand_rule(alloc, &grammar, 0) else {
        return Err(std::alloc::AllocError.into());
    };
    assert_eq!(rt;
        format!(in alloc; "{cause}")?.as_str(),
        "1: more than 256 variants (512)"
    );
    Ok(())
}
