//! A grammar and a lexicon with their symbols.
ghost use Rattle.std.specs.Prelude.{◌≡◌, length};
ghost use Rattle.patr_text.specs.Texts.{first_texts, Extends};
ghost use Rattle.patr_reply.specs.Held.{AreHeldBy};
ghost use Rattle.patr_shell.specs.Spoken.{HasSymbols};

use patr_library::Library;
use patr_text::Symbols;
use std::marker::Model;

/// The symbols of a grammar and a lexicon, and the library that is built from these.
#[derive(Drop)]
pub struct Language {
    symbols: Symbols,
    library: Library,
}

impl Model for Language {
    ghost use Rattle.patr_shell.specs.Spoken.{Spoken, HasSymbols};
    ghost use Rattle.std.specs.Coded.{codes};
    ghost use Rattle.patr_grammar.specs.contracts.grammar.Item as item;
    ghost use Rattle.patr_grammar.specs.contracts.grammar.Element as element;

    ghost coded = { Prim.hlevel (codes, item.the_row.coded, element.the_row.coded) };

    ghost Value = { Spoken };

    ghost view = { λ l. record { texts = l.symbols; library = l.library } };

    ghost invariant = { λ l. HasSymbols (record { texts = l.symbols; library = l.library }) };
}

impl Language {
    /// The language of a library whose symbols these are.
    pub fn new(symbols: Symbols, library: Library) -> Language
        requires first { Extends first_texts symbols }
        requires held { AreHeldBy (length symbols) library }
        ensures texts { result.texts ≡ symbols }
        ensures library { result.library ≡ library }
    {
        Language { symbols, library }
    }

    /// The texts of its symbols.
    pub fn symbols(&self) -> &Symbols
        ensures texts { result.now ≡ self.now.texts }
        ensures symbols { HasSymbols self.now }
    {
        &self.symbols
    }

    /// Its rules and entries.
    pub fn library(&self) -> &Library
        ensures { result.now ≡ self.now.library }
    {
        &self.library
    }
}
