//! The variants of a right side.
ghost use Rattle.std.specs.Prelude.{◌≡◌, ◌<◌, ◌≤◌, ◌++◌, [], IfOk, length, get_or};
ghost use Rattle.patr_model.specs.Grammar.{single, variants, variants_of};
ghost use Rattle.patr_grammar.specs.Levels.{item_seen, right_seen};
ghost use Rattle.patr_expand.specs.Seen.{rights_seen, symbols_seen};
ghost use Rattle.patr_expand.specs.Sizes.{capped, item_variants};
ghost use Rattle.patr_expand.specs.Frames.{IsPlace, variant_at};

use crate::size::{product, sum};
use patr_grammar::{Item, SymbolText};
use patr_text::Memory;

/// How many variants an item has, told up to 2^32.
#[cycle(count)]
fn count_of_item(item: &Item) -> u64
    ensures { result ≡ capped (length (item_variants (item_seen item.now))) }
{
    match item {
        Item::Symbol(_) => 1,
        Item::Optional(alternatives) => sum(count_of_choice(alternatives), 1),
        Item::OneOf(alternatives) => count_of_choice(alternatives),
    }
}

/// How many variants alternatives have together, told up to 2^32.
#[cycle(count)]
fn count_of_choice(alternatives: &[Vec<Item>]) -> u64
    ensures { result ≡ capped (length (variants_of single (rights_seen alternatives.now))) }
{
    let mut count = 0;
    for alternative in alternatives {
        count = sum(count, right_count(alternative));
    }
    count
}

/// How many variants a right side has, told up to 2^32.
#[cycle(count)]
pub(crate) fn right_count(items: &[Item]) -> u64
    ensures { result ≡ capped (length (variants single (right_seen items.now))) }
{
    let mut count = 1;
    for item in items {
        count = product(count, count_of_item(item));
    }
    count
}

/// Puts the constituents of the variant of this number behind others.
#[cycle(rights)]
fn push_item(item: &Item, number: u64, found: &mut Vec<SymbolText>) -> Result<(), Memory>
    requires few { length (item_variants (item_seen item.now)) ≤ 256 }
    requires below { number < length (item_variants (item_seen item.now)) }
    ensures { IfOk result (λ _. symbols_seen found.new.items ≡ symbols_seen found.old.items ++ get_or (item_variants (item_seen item.now)) number []) }
{
    match item {
        Item::Symbol(symbol) => {
            found.push(*symbol)?;
            Ok(())
        }
        Item::Optional(alternatives) => push_choice(alternatives, number, found),
        Item::OneOf(alternatives) => push_choice(alternatives, number, found),
    }
}

/// Puts the constituents of the alternative's variant of this number behind others; none behind the last.
#[cycle(rights)]
fn push_choice(
    alternatives: &[Vec<Item>],
    number: u64,
    found: &mut Vec<SymbolText>,
) -> Result<(), Memory>
    requires few { length (variants_of single (rights_seen alternatives.now)) ≤ 256 }
    ensures { IfOk result (λ _. symbols_seen found.new.items ≡ symbols_seen found.old.items ++ get_or (variants_of single (rights_seen alternatives.now)) number []) }
{
    let mut number = number;
    for alternative in alternatives {
        let count = right_count(alternative);
        if number < count {
            return push_right(alternative, count, number, found);
        }
        number -= count;
    }
    Ok(())
}

/// Puts the constituents of a right side's variant of this number, of so many, behind others.
#[cycle(rights)]
pub(crate) fn push_right(
    items: &[Item],
    count: u64,
    number: u64,
    found: &mut Vec<SymbolText>,
) -> Result<(), Memory>
    requires { IsPlace (right_seen items.now) count number }
    ensures { IfOk result (λ _. symbols_seen found.new.items ≡ symbols_seen found.old.items ++ variant_at (right_seen items.now) number) }
{
    let mut count = count;
    let mut number = number;
    for item in items {
        count /= count_of_item(item);
        push_item(item, number / count, found)?;
        number %= count;
    }
    Ok(())
}
