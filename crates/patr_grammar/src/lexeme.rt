//! Tokens with the numbers of their texts.
ghost use Rattle.std.specs.Prelude.{◌≡◌};
ghost use Rattle.patr_model.specs.Lexemes.{is_kind, is_key, is_clause_word, is_symbol};
ghost use Rattle.patr_model.specs.Productions.{symbol_of};
ghost use Rattle.patr_grammar.specs.Reading.{symbol_seen};
ghost use Rattle.patr_grammar.specs.Views.{by_id};

use crate::grammar::SymbolText;
use patr_model::{Keyword, Kind};
use patr_text::Id;

/// A token: its kind, the numbers of its text and of that text's category, and its place.
#[derive(Clone, Copy, Debug, PartialEq, Eq)]
pub struct Lexeme {
    pub kind: Kind,
    /// Which word of the notation the text is.
    pub key: Keyword,
    pub word: Id,
    pub category: Id,
    /// The line, from 1.
    pub line: u32,
    /// 1 and the number of bytes before the token on its line.
    pub column: u32,
}

// A grammar may have millions of them.
const _: () = prove!(size_of::<Lexeme>() <= 24);

impl Lexeme {
    /// It is of this kind.
    pub fn is_kind(&self, kind: Kind) -> bool
        ensures { result ≡ is_kind by_id kind self.now }
    {
        self.kind == kind
    }

    /// It is this word of the notation.
    pub fn is_key(&self, key: Keyword) -> bool
        ensures { result ≡ is_key by_id key self.now }
    {
        self.kind == Kind::Word && self.key == key
    }

    /// It is a word that begins a clause.
    pub fn is_clause_word(&self) -> bool
        ensures { result ≡ is_clause_word by_id self.now }
    {
        self.is_key(Keyword::Rule)
            || self.is_key(Keyword::Let)
            || self.is_key(Keyword::Define)
            || self.is_key(Keyword::Parameter)
    }

    /// It is a word that begins no clause.
    pub fn is_symbol(&self) -> bool
        ensures { result ≡ is_symbol by_id self.now }
    {
        self.is_kind(Kind::Word) && !self.is_clause_word()
    }

    /// The symbol that it is, with its category.
    pub fn symbol_text(&self) -> SymbolText
        ensures { symbol_seen result ≡ symbol_of by_id self.now }
    {
        SymbolText {
            symbol: self.word,
            category: self.category,
        }
    }
}
