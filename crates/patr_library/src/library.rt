//! What is built from a grammar and a lexicon.
ghost use Rattle.std.specs.Prelude.{◌≡◌, IfOk, IfErr};
ghost use Rattle.patr_lists.specs.Numbers.{places};
ghost use Rattle.patr_arena.specs.Arenas.{shown_of};
ghost use Rattle.patr_library.specs.Stored.{IsBuiltFrom, IsRefusedFor, IsStored, is_of_word, is_of_mother};

use crate::index::index_of;
use crate::item::{BuildFault, EntryItem, RuleItem};
use crate::making::{all_items, mothers, words};
use patr_arena::PlainArena;
use patr_grammar::Grammar;
use patr_lexicon::Lexicon;
use patr_lists::NumberLists;
use patr_text::Id;
use std::alloc::Global;
use std::marker::Model;

/// A grammar and a lexicon, and the variants of their rules and entries that have a solution, each with its least value.
#[derive(Drop)]
pub struct Library {
    grammar: Grammar,
    lexicon: Lexicon,
    arena: PlainArena,
    rules: Vec<RuleItem>,
    entries: Vec<EntryItem>,
    // by the number of a symbol, the items of rules with this mother and those of entries of this word
    by_mother: NumberLists,
    by_word: NumberLists,
}

impl Model for Library {
    ghost use Rattle.patr_library.specs.Stored.{Stored};
    ghost use Rattle.std.specs.Coded.{codes};
    ghost use Rattle.patr_grammar.specs.contracts.grammar.Item as item;
    ghost use Rattle.patr_grammar.specs.contracts.grammar.Element as element;

    ghost coded = { Prim.hlevel (codes, item.the_row.coded, element.the_row.coded) };

    ghost Value = { Stored };

    ghost use Rattle.patr_library.specs.Kept.{stored, IsKept};

    ghost view = { stored };

    ghost invariant = { IsKept };
}

impl Library {
    /// The variants of the rules and entries that have a solution, each with its least value.
    pub fn build(alloc: Global, grammar: Grammar, lexicon: Lexicon) -> Result<Library, BuildFault>
        ensures built { IfOk result (λ library. IsBuiltFrom grammar lexicon library) }
        ensures refused { IfErr result (λ fault. IsRefusedFor grammar lexicon fault) }
    {
        let items = all_items(alloc, &grammar, lexicon.entries())?;
        let by_mother = index_of(alloc, &mothers(alloc, &items.rules)?)?;
        let by_word = index_of(alloc, &words(alloc, lexicon.entries(), &items.entries)?)?;
        Ok(Library {
            grammar,
            lexicon,
            arena: items.arena,
            rules: items.rules,
            entries: items.entries,
            by_mother,
            by_word,
        })
    }

    /// The variants of rules that have a solution, by rule and variant.
    pub fn rules(&self) -> &[RuleItem]
        ensures same { result.now ≡ self.now.rules }
        ensures stored { IsStored self.now }
    {
        &self.rules
    }

    /// The variants of entries that have a solution, by entry and variant.
    pub fn entries(&self) -> &[EntryItem]
        ensures same { result.now ≡ self.now.entries }
        ensures stored { IsStored self.now }
    {
        &self.entries
    }

    /// The places in `entries` of the items of entries of this word, rising.
    pub fn items_of(&self, word: Id) -> &[u32]
        ensures { result.now ≡ places (is_of_word self.now.lexicon word.0) 0 self.now.entries }
    {
        self.by_word.list(word.0 as usize)
    }

    /// The places in `rules` of the items with this mother, rising.
    pub fn rules_of(&self, mother: Id) -> &[u32]
        ensures { result.now ≡ places (is_of_mother mother.0) 0 self.now.rules }
    {
        self.by_mother.list(mother.0 as usize)
    }

    /// The grammar.
    pub fn grammar(&self) -> &Grammar
        ensures { result.now ≡ self.now.grammar }
    {
        &self.grammar
    }

    /// The lexicon.
    pub fn lexicon(&self) -> &Lexicon
        ensures { result.now ≡ self.now.lexicon }
    {
        &self.lexicon
    }

    /// The nodes of all roots.
    pub fn arena(&self) -> &PlainArena
        ensures { shown_of result.now ≡ self.now.shown }
    {
        &self.arena
    }
}
