//! Tests of the public calls, and worked examples in tables.
ghost use Rattle.std.specs.Prelude.{◌≡◌, ℕ, ◌+◌, ◌<◌, ◌≤◌, ◌∷◌, [], length, IfOk};
ghost use Rattle.std.specs.List.Sorted.{IsStrictlyIncreasing};
ghost use Rattle.patr_model.specs.Structure.{Node};
ghost use Rattle.patr_arena.specs.Arenas.{shown_of};
ghost use Rattle.patr_arena.specs.Blocks.{AllBelow, attributes, nothing, with_block};
ghost use Rattle.patr_arena.specs.Sentences.{sentence_of};
ghost use Rattle.patr_arena.specs.declared.value.Ref.TheVariants as ref;
ghost use Rattle.patr_canon.specs.Nodes.{NodeIsBelow, NodesAreBelow};
ghost use Rattle.patr_canon.specs.ReadBack.{IsOwn};
ghost use Rattle.patr_canon.specs.Walks.{AreSpelled};

use super::*;
use patr_arena::{Addr, Block, Feature, Nodes, PlainArena, Ref, SentenceArena, Value, View};
use patr_text::Symbols;
use std::alloc::{AllocError, Global};
use std::test::Fail;

const B: Id = Id(38);

const A: Id = Id(39);

const C: Id = Id(40);

const X: Id = Id(41);

const WORDS: Id = Id(42);

const SAYS: Id = Id(43);

/// A table in which the names above have their texts.
fn symbols(alloc: Global) -> Result<Symbols, Memory> {
    let mut symbols = Symbols::new(alloc)?;
    for text in ["b", "a", "c", "x", "two words", "say \"hi\""] {
        if symbols.len() < 100 {
            symbols.intern(text)?;
        }
    }
    Ok(symbols)
}

/// Adds a node without old addresses.
fn add(block: &mut Block, arcs: &[Feature]) -> Result<(), Memory>
    requires rising { IsStrictlyIncreasing (attributes arcs.now) }
    requires below { AllBelow (length block.old) arcs.now }
    requires symbols { NodeIsBelow 44 arcs.now }
    ensures length { IfOk result (λ _. length block.new ≡ length block.old + 1) }
    ensures symbols { IfOk result (λ _. NodesAreBelow 44 block.old → NodesAreBelow 44 block.new) }
{
    block.add(arcs)?;
    Ok(())
}

/// Adds a node with two arcs.
fn add_two(block: &mut Block, first: Feature, second: Feature) -> Result<(), Memory>
    requires rising { first.attribute.0 < second.attribute.0 }
    requires below { AllBelow (length block.old) (first ∷ second ∷ []) }
    requires symbols { NodeIsBelow 44 (first ∷ second ∷ []) }
    ensures length { IfOk result (λ _. length block.new ≡ length block.old + 1) }
    ensures symbols { IfOk result (λ _. NodesAreBelow 44 block.old → NodesAreBelow 44 block.new) }
{
    add(block, &[first, second])
}

/// An arc.
const fn arc(attribute: Id, to: Ref) -> Feature
    ensures { result ≡ record { attribute = attribute; to = to } }
{
    Feature { attribute, to }
}

/// A block of the nodes whose texts the tests list.
fn sample_block(alloc: Global) -> Result<Block, Memory>
    ensures length { IfOk result (λ block. length block ≡ 7) }
    ensures symbols { IfOk result (λ block. NodesAreBelow 44 block) }
{
    let mut block = Block::new(alloc);
    add(&mut block, &[arc(B, Ref::Atom(X))])?;
    add_two(&mut block, arc(A, Ref::New(0)), arc(C, Ref::New(0)))?;
    add(&mut block, &[])?;
    add_two(&mut block, arc(B, Ref::New(2)), arc(A, Ref::New(1)))?;
    add_two(&mut block, arc(B, Ref::New(1)), arc(A, Ref::New(0)))?;
    add_two(&mut block, arc(A, Ref::New(1)), arc(C, Ref::New(1)))?;
    add_two(
        &mut block,
        arc(B, Ref::Atom(WORDS)),
        arc(C, Ref::Atom(SAYS)),
    )?;
    Ok(block)
}

/// An arena of the sample's block.
fn sample(alloc: Global) -> Result<PlainArena, Memory>
    ensures sizes { IfOk result (λ arena. (shown_of arena).sizes ≡ 7 ∷ []) }
    ensures spelled { IfOk result (λ arena. (k : ℕ) → AreSpelled 44 (shown_of arena).structure (Node k)) }
{
    let block = sample_block(alloc)?;
    let mut arena = PlainArena::new(alloc);
    let Ok(_) = arena.push(block) else {
        return Err(AllocError);
    };
    Ok(arena)
}

/// The text of a node of the sample.
fn text<'a>(
    alloc: Global,
    room: &mut TextRoom<'a>,
    symbols: &'a Symbols,
    order: &'a [Id],
    arena: &PlainArena,
    offset: u32,
) -> Result<String, Memory>
    requires sizes { (shown_of arena.now).sizes ≡ 7 ∷ [] }
    requires spelled { (k : ℕ) → AreSpelled 44 (shown_of arena.now).structure (Node k) }
    requires offset { offset < 7 }
    requires symbols { 44 ≤ length symbols.now }
{
    let value = Value::Node(Addr { block: 0, offset });
    let mut text = String::new(alloc);
    write_canonical(alloc, room, symbols, order, arena, value, &mut text)?;
    Ok(text)
}

/// The usual order of attributes, by their texts alone.
const BY_TEXT: &[Id] = &[];

/// An order in which some attributes come first.
const C_FIRST: &[Id] = &[C, B, C];

#[test]
fn values_have_texts(rt: HostRuntime) -> Result<(), Fail> {
    let alloc = rt.alloc();
    let symbols = symbols(alloc)?;
    assert!(rt; symbols.len() >= 44);
    let arena = sample(alloc)?;
    let mut room = TextRoom::new(alloc);
    for (order, offset, wanted) in [
        (BY_TEXT, 0, "[b: x]"),
        (BY_TEXT, 1, "[a: #1 [b: x] c: #1]"),
        (BY_TEXT, 2, "[]"),
        (BY_TEXT, 3, "[a: [a: #1 [b: x] c: #1] b: []]"),
        (BY_TEXT, 4, "[a: #1 [b: x] b: [a: #1 c: #1]]"),
        (BY_TEXT, 5, "[a: #1 [a: #2 [b: x] c: #2] c: #1]"),
        (BY_TEXT, 6, "[b: \"two words\" c: \"say \\\"hi\\\"\"]"),
        (C_FIRST, 1, "[c: #1 [b: x] a: #1]"),
        (C_FIRST, 3, "[b: [] a: [c: #1 [b: x] a: #1]]"),
    ] {
        let text = text(alloc, &mut room, &symbols, order, &arena, offset)?;
        assert_eq!(rt; text.as_str(), wanted);
    }
    Ok(())
}

/// An arena of the one node `[a: x]`.
fn base(alloc: Global) -> Result<PlainArena, Memory>
    ensures { IfOk result (λ arena. shown_of arena ≡ with_block nothing ((record { attribute = record { 0 = 39 }; to = ref.Atom (record { 0 = 41 }) } ∷ []) ∷ [])) }
{
    let mut block = Block::new(alloc);
    block.add(&[arc(A, Ref::Atom(X))])?;
    let mut arena = PlainArena::new(alloc);
    let Ok(_) = arena.push(block) else {
        return Err(AllocError);
    };
    Ok(arena)
}

/// Puts a block of one node behind the base, with an arc `b` to the node of the base.
fn push_over(alloc: Global, arena: &mut SentenceArena) -> Result<(), Memory>
    requires { (sentence_of arena.old).sizes ≡ 1 ∷ [] }
    ensures { IfOk result (λ _. sentence_of arena.new ≡ with_block (sentence_of arena.old) ((record { attribute = record { 0 = 38 }; to = ref.Old (record { block = 0; offset = 0 }) } ∷ []) ∷ [])) }
{
    let mut block = Block::new(alloc);
    let to = Ref::Old(Addr {
        block: 0,
        offset: 0,
    });
    block.add(&[arc(B, to)])?;
    let Ok(_) = arena.push(block) else {
        return Err(AllocError);
    };
    Ok(())
}

#[test]
fn a_value_over_a_base_has_a_text(rt: HostRuntime) -> Result<(), Fail> {
    let alloc = rt.alloc();
    let symbols = symbols(alloc)?;
    assert!(rt; symbols.len() >= 44);
    let base = base(alloc)?;
    let mut arena = SentenceArena::over(alloc, &base);
    push_over(alloc, &mut arena)?;
    let view = View::of(&arena);
    let value = Value::Node(Addr {
        block: 1,
        offset: 0,
    });
    assert_eq!(rt;
        canonical(alloc, &symbols, &[], &view, value)?.as_str(),
        "[b: [a: x]]"
    );
    Ok(())
}

/// The block that a text is read back as, with its root; `None` where the text is that of no structure.
fn read_back(
    alloc: Global,
    symbols: &mut Symbols,
    text: &str,
) -> Result<Option<(Block, Ref)>, Memory>
    ensures { IfOk result (IsOwn (length symbols.new)) }
{
    if symbols.len() >= 1000 || text.len() >= 1000 {
        return Err(AllocError);
    }
    match read_canonical(alloc, symbols, &[], text) {
        Ok(read) => Ok(Some(read)),
        Err(Fault::Refused(NotCanonical)) => Ok(None),
        Err(Fault::Memory) => Err(AllocError),
    }
}

/// How many nodes a text is read back as, and the text that these have.
fn printed_again(
    alloc: Global,
    symbols: &mut Symbols,
    text: &str,
) -> Result<Option<(u32, String)>, Memory> {
    let Some((block, root)) = read_back(alloc, symbols, text)? else {
        return Ok(None);
    };
    let nodes = block.len();
    let mut arena = PlainArena::new(alloc);
    let Ok(_) = arena.push(block) else {
        return Err(AllocError);
    };
    let value = arena.resolve(0, root);
    let again = canonical(alloc, symbols, &[], &arena, value)?;
    Ok(Some((nodes, again)))
}

#[test]
fn texts_are_read_back(rt: HostRuntime) -> Result<(), Fail> {
    let alloc = rt.alloc();
    let mut symbols = symbols(alloc)?;
    for (text, nodes) in [
        ("[a: #1 [b: x] c: #1]", 2),
        ("new", 0),
        ("[]", 1),
        ("[a: #1 [a: #2 [b: x] c: #2] c: #1]", 3),
        ("[b: \"two words\" c: \"say \\\"hi\\\"\"]", 1),
    ] {
        let Some((count, again)) = printed_again(alloc, &mut symbols, text)? else {
            return Err(Fail::new("a text is refused"));
        };
        assert_eq!(rt; count, nodes, "at {text}");
        assert_eq!(rt; again.as_str(), text);
    }
    Ok(())
}

#[test]
fn other_texts_are_refused(rt: HostRuntime) -> Result<(), Fail> {
    let alloc = rt.alloc();
    let mut symbols = symbols(alloc)?;
    for text in [
        "[c: #1 [b: x] a: #1]",
        "[a: #1 x]",
        "[a: #1 [b: x]]",
        "[a:x]",
        "",
        "[a: x a: x]",
        "[a: #1 b: #1 []]",
        "#1 [a: #1]",
        "[a: #01 [] b: #01]",
        "[a: #4294967297 [] b: #4294967297]",
        "\"x\"",
        "x ",
        "[a: x",
        "[a: x]]",
    ] {
        assert!(rt;
            read_back(alloc, &mut symbols, text)?.is_none(),
            "at {text}"
        );
    }
    Ok(())
}
