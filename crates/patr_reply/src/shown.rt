//! The reply to `:show`: a line for each variant of a word's entries.
ghost use Rattle.std.specs.Prelude.{◌≡◌, ◌<◌, ◌++◌, [], length, slice_get, Some, codes, decimal, IfOk};
ghost use Rattle.std.specs.List.{AllByRecursion};
ghost use Rattle.std.specs.String.{string_bytes};
ghost use Rattle.patr_model.specs.Session.{Numbering, AgreesWith, line};
ghost use Rattle.patr_model.specs.Showing.{IsShowReply};
ghost use Rattle.patr_model.specs.Table.{table_look};
ghost use Rattle.patr_model.specs.Text.{canonical};
ghost use Rattle.patr_arena.specs.Arenas.{shown_of};
ghost use Rattle.patr_arena.specs.Shown.{ValueIsHeld, value_of};
ghost use Rattle.patr_canon.specs.Walks.{AreSpelled};
ghost use Rattle.patr_reply.specs.Held.{AreHeldBy};
ghost use Rattle.patr_reply.specs.Lines.{grounds, items_text};
ghost use Rattle.patr_reply.specs.Sources.{IsItemReady};

use crate::refused::unknown_line;
use patr_arena::{PlainArena, Value};
use patr_canon::{TextRoom, write_canonical};
use patr_library::{EntryItem, Library};
use patr_parse::known_word;
use patr_text::{Memory, Symbols};
use std::alloc::Global;

/// Appends the line of a value, behind its number.
fn write_item<'a>(
    alloc: Global,
    symbols: &'a Symbols,
    arena: &PlainArena,
    number: usize,
    root: Value,
    room: &mut TextRoom<'a>,
    out: &mut String,
) -> Result<(), Memory>
    requires value { ValueIsHeld (shown_of arena.now) root }
    requires spelled { AreSpelled (length symbols.now) (shown_of arena.now).structure (value_of (shown_of arena.now) root) }
    ensures { IfOk result (λ _. string_bytes out.new ≡ string_bytes out.old
        ++ line (decimal number ++ codes " " ++ canonical (table_look symbols.now []) (shown_of arena.now).structure (value_of (shown_of arena.now) root))) }
{
    write!(out, "{number} ")?;
    write_canonical(alloc, room, symbols, &[], arena, root, out)?;
    out.push('\n')
}

/// The item of an entry's variant, by its place.
fn item_at(items: &[EntryItem], place: u32) -> &EntryItem
    requires { place < length items.now }
    ensures { slice_get items.now place ≡ Some result.now }
{
    &items[place as usize]
}

/// The reply that lists the items at these places.
fn listed(
    alloc: Global,
    symbols: &Symbols,
    arena: &PlainArena,
    items: &[EntryItem],
    places: &[u32],
) -> Result<String, Memory>
    requires { AllByRecursion (IsItemReady (length symbols.now) (shown_of arena.now) items.now) places.now }
    ensures { IfOk result (λ text. string_bytes text ≡ items_text (table_look symbols.now []) (shown_of arena.now) items.now places.now) }
{
    let mut text = format!(in alloc; "entries {}\n", places.len())?;
    // one value after another is written in the same memory
    let mut room = TextRoom::new(alloc);
    for (number, place) in places.iter().enumerate() {
        let root = item_at(items, *place).root;
        write_item(
            alloc,
            symbols,
            arena,
            number + 1,
            root,
            &mut room,
            &mut text,
        )?;
    }
    Ok(text)
}

/// The reply to `:show` of this word: the variants of its entries that have a solution, by entry and variant, each with
/// the canonical text of its least value; or the line that says that the word has no entry. `symbols` has the texts of
/// the library. Fails for want of memory alone.
pub fn show(
    alloc: Global,
    symbols: &Symbols,
    library: &Library,
    word: &str,
) -> Result<String, Memory>
    requires { AreHeldBy (length symbols.now) library.now }
    ensures { (names : Numbering) → AgreesWith names symbols.now
        → IfOk result (λ text. IsShowReply (grounds names library.now) word.now (string_bytes text)) }
{
    // the table begins with the first texts
    let _count = symbols.len();
    match known_word(library, symbols, word) {
        Some(id) => {
            let places = library.items_of(id);
            listed(alloc, symbols, library.arena(), library.entries(), places)
        }
        None => unknown_line(alloc, 1, word),
    }
}
