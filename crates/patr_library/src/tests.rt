ghost use Rattle.std.specs.Prelude.{◌≡◌, IfOk};
ghost use Rattle.patr_arena.specs.Arenas.{shown_of};
ghost use Rattle.patr_arena.specs.Shown.{ValueIsHeld};
ghost use Rattle.patr_arena.specs.declared.value.Ref.TheVariants as ref;
ghost use Rattle.patr_library.specs.Own.{IsRooted};

use super::*;
use crate::stating::top;
use crate::workspace::Least;
use patr_arena::{Addr, Block, Feature, Nodes, PlainArena, Ref, SentenceArena, Value, maps_into};
use patr_expand::ExpandCause;
use patr_grammar::read_grammar;
use patr_lexicon::read_lexicon;
use patr_text::{Id, Symbols};
use std::alloc::{AllocError, Global};
use std::process::Abort;
use std::test::Fail;

const HEAD: Id = Id(38);

const S: Id = Id(39);

const NP: Id = Id(40);

const VP: Id = Id(41);

const DOG: Id = Id(42);

const RUNS: Id = Id(43);

const HOUND: Id = Id(44);

/// A table in which the names above have their texts.
fn symbols(alloc: Global) -> Result<Symbols, Memory> {
    let mut symbols = Symbols::new(alloc)?;
    for text in ["head", "S", "NP", "VP", "dog", "runs", "hound"] {
        if symbols.len() < 100 {
            symbols.intern(text)?;
        }
    }
    Ok(symbols)
}

/// The library of a grammar and a lexicon.
fn library<A: Abort>(
    rt: &A,
    alloc: Global,
    grammar: &[u8],
    lexicon: &[u8],
) -> Result<Result<Library, BuildFault>, Fail> {
    let mut symbols = symbols(alloc)?;
    assert!(rt; symbols.len() < 1000 && grammar.len() < 100_000);
    let grammar = read_grammar(alloc, &mut symbols, grammar)?;
    assert!(rt; symbols.len() < 1_000_000 && lexicon.len() < 1000);
    let lexicon = read_lexicon(alloc, &mut symbols, lexicon)?;
    Ok(Library::build(alloc, grammar, lexicon))
}

/// The second rule has no solution.
const GRAMMAR: &[u8] = b"Rule S -> NP VP: <S head> = <VP head>. Rule NP -> VP: <NP head> = <NP>.";

/// The second entry of `runs` has no solution.
const LEXICON: &[u8] =
    b"\\w dog\n\\c NP\n\\g hound\n\\w runs\n\\c VP\n\\f <cat> = NP\n\\w runs\n\\c VP\n";

/// An arc.
const fn arc(attribute: Id, to: Ref) -> Feature
    ensures { result ≡ record { attribute = attribute; to = to } }
{
    Feature { attribute, to }
}

/// The node of slots `[0: [cat: S head: #1 []] 1: [cat: NP] 2: [cat: VP head: #1]]`.
fn wanted_rule(alloc: Global) -> Result<Least, Memory>
    ensures { IfOk result (λ made. IsRooted made.block (ref.New made.root)) }
{
    let mut block = Block::new(alloc);
    let head = Ref::New(top(&mut block, &[])?);
    let mother = [arc(Symbols::CAT, Ref::Atom(S)), arc(HEAD, head)];
    let mother = Ref::New(top(&mut block, &mother)?);
    let first = Ref::New(top(&mut block, &[arc(Symbols::CAT, Ref::Atom(NP))])?);
    let second = [arc(Symbols::CAT, Ref::Atom(VP)), arc(HEAD, head)];
    let second = Ref::New(top(&mut block, &second)?);
    let slots = [arc(Id(0), mother), arc(Id(1), first), arc(Id(2), second)];
    let root = top(&mut block, &slots)?;
    Ok(Least { block, root })
}

/// The node `[cat: NP lex: dog gloss: hound]`.
fn wanted_entry(alloc: Global) -> Result<Least, Memory>
    ensures { IfOk result (λ made. IsRooted made.block (ref.New made.root)) }
{
    let mut block = Block::new(alloc);
    let arcs = [
        arc(Symbols::CAT, Ref::Atom(NP)),
        arc(Symbols::LEX, Ref::Atom(DOG)),
        arc(Symbols::GLOSS, Ref::Atom(HOUND)),
    ];
    let root = top(&mut block, &arcs)?;
    Ok(Least { block, root })
}

/// Whether a value of the arena is the same structure as the root of a block.
fn is_same(alloc: Global, arena: &PlainArena, value: Value, wanted: Least) -> Result<bool, Memory>
    requires held { ValueIsHeld (shown_of arena.now) value }
    requires rooted { IsRooted wanted.block (ref.New wanted.root) }
{
    let mut sentence = SentenceArena::over(alloc, arena);
    let Ok(number) = sentence.push(wanted.block) else {
        return Err(AllocError);
    };
    let other = sentence.resolve(number, Ref::New(wanted.root));
    Ok(maps_into(alloc, &sentence, value, other)? && maps_into(alloc, &sentence, other, value)?)
}

/// Whether the root of the first item of a rule is this.
fn first_rule_is(alloc: Global, library: &Library, wanted: Least) -> Result<bool, Memory>
    requires { IsRooted wanted.block (ref.New wanted.root) }
{
    let Some(item) = library.rules().first() else {
        return Ok(false);
    };
    is_same(alloc, library.arena(), Value::Node(item.root), wanted)
}

/// Whether the root of the first item of an entry is this.
fn first_entry_is(alloc: Global, library: &Library, wanted: Least) -> Result<bool, Memory>
    requires { IsRooted wanted.block (ref.New wanted.root) }
{
    let Some(item) = library.entries().first() else {
        return Ok(false);
    };
    is_same(alloc, library.arena(), item.root, wanted)
}

/// Whether the two least values are those that are wanted.
fn has_wanted(alloc: Global, library: &Library) -> Result<bool, Memory> {
    let rule = wanted_rule(alloc)?;
    let entry = wanted_entry(alloc)?;
    Ok(first_rule_is(alloc, library, rule)? && first_entry_is(alloc, library, entry)?)
}

/// Whether the items are found by their mothers and words.
fn is_found(library: &Library) -> bool {
    library.rules_of(S) == [0].as_slice()
        && library.rules_of(NP).is_empty()
        && library.items_of(DOG) == [0].as_slice()
        && library.items_of(RUNS) == [1].as_slice()
}

/// How many items of rules and of entries there are.
fn counts(library: &Library) -> (usize, usize) {
    (library.rules().len(), library.entries().len())
}

#[test]
fn items_have_solutions(rt: HostRuntime) -> Result<(), Fail> {
    let alloc = rt.alloc();
    let Ok(library) = library(&rt, alloc, GRAMMAR, LEXICON)? else {
        assert!(rt; false);
        return Ok(());
    };
    assert_eq!(rt; counts(&library), (1, 2));
    assert!(rt; is_found(&library));
    assert!(rt; has_wanted(alloc, &library)?);
    Ok(())
}

#[test]
fn large_rules_are_refused(rt: HostRuntime) -> Result<(), Fail> {
    let alloc = rt.alloc();
    let mut grammar = String::new(alloc);
    grammar.push_str("Rule S -> NP:\n")?;
    for _ in 0..1025 {
        grammar.push_str(" <S head> = a")?;
    }
    let Err(fault) = library(&rt, alloc, grammar.as_bytes(), b"")? else {
        assert!(rt; false);
        return Ok(());
    };
    let cause = ExpandCause::TooManyEquations {
        line: 1,
        count: 1025,
    };
    assert_eq!(rt; fault, BuildFault::InGrammar(cause));
    Ok(())
}
