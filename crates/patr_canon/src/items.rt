//! A canonical text, one thing after another.
ghost use Rattle.std.specs.Prelude.{◌≡◌, ◌≤◌, ◌<◌, ◌+◌, ◌-◌, ◌^◌, length, slice_get, IfOk, IfSome, MatchOption, Some, [], ◌∷◌, option_copied, None};
ghost use Rattle.patr_text.specs.Texts.{Extends};
ghost use Rattle.patr_model.specs.Items.{AValue};
ghost use Rattle.patr_model.specs.Reading.{skip};
ghost use Rattle.patr_model.specs.Stack.{separator};
ghost use Rattle.patr_canon.specs.Items.{HasGrown, IsBareFront, IsFurther, IsFurtherItem, IsItem, IsNumbered, IsQuotedFront, IsSymbolFront, expect_behind, expect_in, expected_seen};
ghost use Rattle.patr_canon.specs.Walks.{event_seen};

use crate::event::Event;
use crate::front::{bare_front, behind, behind_both, number_front, unquote};
use patr_text::{Id, Memory, Symbols};
use std::alloc::Global;

/// What stands at the front of a text, and what is behind it; `None` where nothing that is looked for stands there.
type Found<'a, X> = Result<Option<(X, &'a str)>, Memory>;

/// An event that stands at the front of a text, and what is behind it.
type FoundItem<'a> = Found<'a, Event>;

/// What a text goes on with: a value; a node's first attribute or its bracket; what follows a value.
#[derive(Clone, Copy, Debug, PartialEq, Eq)]
pub(crate) enum Expected {
    Value,
    First,
    Next,
}

impl Event {
    /// What a text goes on with behind this.
    pub(crate) fn expected_behind(self) -> Expected
        ensures { expected_seen result ≡ expect_behind (event_seen self) }
    {
        match self {
            Event::Atom(_) | Event::Again(_) | Event::Close => Expected::Next,
            Event::Open(_) => Expected::First,
            Event::Arc { .. } => Expected::Value,
        }
    }
}

/// The number of a text, which the table has from then on.
fn number_of(symbols: &mut Symbols, text: &str) -> Result<Id, Memory>
    requires { length symbols.old < 2 ^ 32 - 1 }
    ensures table { Extends symbols.old symbols.new }
    ensures limit { length symbols.new ≤ length symbols.old + 1 }
    ensures number { IfOk result (λ id. slice_get symbols.new id.0 ≡ Some text.now) }
{
    symbols.intern(text)
}

/// The symbol up to the closing quote, and what is behind it.
fn quoted_symbol<'a>(alloc: Global, symbols: &mut Symbols, text: &'a str) -> Found<'a, Id>
    requires room { length symbols.old + length text.now < 2 ^ 32 - 1 }
    ensures grown { HasGrown symbols.old symbols.new text.now }
    ensures front { IfOk result (IsQuotedFront symbols.new text.now) }
    ensures further { IfOk result (IsFurther symbols.old symbols.new text.now) }
{
    let mut symbol = String::new(alloc);
    let Some(rest) = unquote(text, &mut symbol)? else {
        return Ok(None);
    };
    let number = number_of(symbols, symbol.as_str())?;
    Ok(Some((number, rest)))
}

/// The symbol without quotes, and what is behind it; `None` where it has no bytes.
fn bare_symbol<'a>(symbols: &mut Symbols, text: &'a str) -> Found<'a, Id>
    requires room { length symbols.old + length text.now < 2 ^ 32 - 1 }
    ensures grown { HasGrown symbols.old symbols.new text.now }
    ensures front { IfOk result (IsBareFront symbols.new text.now) }
    ensures further { IfOk result (IsFurther symbols.old symbols.new text.now) }
{
    let (symbol, rest) = bare_front(text);
    if symbol.is_empty() {
        return Ok(None);
    }
    let number = number_of(symbols, symbol)?;
    Ok(Some((number, rest)))
}

/// The atom or attribute at the front, and what is behind it.
fn symbol_front<'a>(alloc: Global, symbols: &mut Symbols, text: &'a str) -> Found<'a, Id>
    requires room { length symbols.old + length text.now < 2 ^ 32 - 1 }
    ensures grown { HasGrown symbols.old symbols.new text.now }
    ensures front { IfOk result (IsSymbolFront symbols.new text.now) }
    ensures further { IfOk result (IsFurther symbols.old symbols.new text.now) }
{
    match behind(text, '"') {
        Some(quoted) => quoted_symbol(alloc, symbols, quoted),
        None => bare_symbol(symbols, text),
    }
}

/// A number with the bracket of its node, or without, and what is behind it.
fn numbered(text: &str) -> Option<(Event, &str)>
    ensures { IsNumbered text.now result }
{
    let (number, rest) = number_front(text)?;
    match behind_both(rest, ' ', '[') {
        Some(rest) => Some((Event::Open(number), rest)),
        None => Some((Event::Again(number), rest)),
    }
}

/// What a value begins with, and what is behind it.
fn value_item<'a>(alloc: Global, symbols: &mut Symbols, text: &'a str) -> FoundItem<'a>
    requires room { length symbols.old + length text.now < 2 ^ 32 - 1 }
    ensures grown { HasGrown symbols.old symbols.new text.now }
    ensures item { IfOk result (IsItem symbols.new AValue text.now) }
    ensures further { IfOk result (IsFurtherItem symbols.old symbols.new text.now) }
{
    if let Some(rest) = behind(text, '[') {
        return Ok(Some((Event::Open(0), rest)));
    }
    if let Some(rest) = behind(text, '#') {
        return Ok(numbered(rest));
    }
    let Some((atom, rest)) = symbol_front(alloc, symbols, text)? else {
        return Ok(None);
    };
    Ok(Some((Event::Atom(atom), rest)))
}

/// What is behind the separator of an arc, which is empty before a node's first one.
fn separated(first: bool, text: &str) -> Option<&str>
    ensures rest { option_copied result ≡ skip (separator first) text.now }
    ensures shorter { IfSome result (λ rest. length rest.now ≤ length text.now) }
{
    if first { Some(text) } else { behind(text, ' ') }
}

/// A node's bracket, or its first or a further attribute with its `: `, and what is behind it.
fn node_item<'a>(alloc: Global, symbols: &mut Symbols, first: bool, text: &'a str) -> FoundItem<'a>
    requires room { length symbols.old + length text.now < 2 ^ 32 - 1 }
    ensures grown { HasGrown symbols.old symbols.new text.now }
    ensures item { IfOk result (IsItem symbols.new (expect_in first) text.now) }
    ensures further { IfOk result (IsFurtherItem symbols.old symbols.new text.now) }
{
    if let Some(rest) = behind(text, ']') {
        return Ok(Some((Event::Close, rest)));
    }
    let Some(rest) = separated(first, text) else {
        return Ok(None);
    };
    let Some((attribute, rest)) = symbol_front(alloc, symbols, rest)? else {
        return Ok(None);
    };
    let Some(rest) = behind_both(rest, ':', ' ') else {
        return Ok(None);
    };
    Ok(Some((Event::Arc { first, attribute }, rest)))
}

/// What stands at the front of a canonical text, or of what is left of one, by what is expected, and what is behind
/// it. Symbols get their numbers.
pub(crate) fn item_front<'a>(
    alloc: Global,
    symbols: &mut Symbols,
    expected: Expected,
    text: &'a str,
) -> FoundItem<'a>
    requires room { length symbols.old + length text.now < 2 ^ 32 - 1 }
    ensures grown { HasGrown symbols.old symbols.new text.now }
    ensures item { IfOk result (IsItem symbols.new (expected_seen expected) text.now) }
    ensures further { IfOk result (IsFurtherItem symbols.old symbols.new text.now) }
{
    match expected {
        Expected::Value => value_item(alloc, symbols, text),
        Expected::First => node_item(alloc, symbols, true, text),
        Expected::Next => node_item(alloc, symbols, false, text),
    }
}
