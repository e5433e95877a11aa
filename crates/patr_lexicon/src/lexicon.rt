//! What the bytes of a lexicon stand for: entries with an index by word; or why it is refused.
ghost use Rattle.std.specs.Prelude.{◌≡◌, ◌^◌, ◌<◌, length, IfOk};
ghost use Rattle.patr_lists.specs.Numbers.{places};
ghost use Rattle.patr_lexicon.specs.Entries.{is_of};

use crate::listing::numbers_by_word;
use patr_grammar::{Element, What, expected_text};
use patr_lists::NumberLists;
use patr_text::{Id, Memory};
use std::alloc::Global;
use std::marker::Model;
use thiserror::Error;

/// Why a lexicon is refused. Lines and columns count from 1, columns in bytes.
#[derive(Clone, Copy, Debug, PartialEq, Eq, Error)]
pub enum LexiconCause {
    /// The file is not UTF-8. `at` is the length, in bytes, of its longest front that is.
    #[error("lexicon: not UTF-8 at byte {at}")]
    NotUtf8 { at: u64 },
    /// A control character that is no white space stands outside comments.
    #[error("lexicon {line}:{column}: bad character")]
    BadToken { line: u32, column: u32 },
    /// Text stands before the first `\w`, or a `\w` field is empty.
    #[error("lexicon {line}: no word")]
    NoWord { line: u32 },
    /// A `\w` field has more than one word.
    #[error("lexicon {line}: several words")]
    SeveralWords { line: u32 },
    /// A record's last `\c` field has not exactly one word, or there is none. The line is that of its `\w`.
    #[error("lexicon {line}: no category")]
    NoCategory { line: u32 },
    /// Something else has to stand here in a text of features.
    #[error("lexicon {line}:{column}: expected {}", expected_text(.what))]
    Expected { line: u32, column: u32, what: What },
    /// A path of features has more than 32 attributes; the first too many stands here.
    #[error("lexicon {line}:{column}: path too long")]
    PathTooLong { line: u32, column: u32 },
    /// Choices are open in 16 levels, and here begins one more.
    #[error("lexicon {line}:{column}: too deep")]
    TooDeep { line: u32, column: u32 },
}

/// An entry of a lexicon, by the numbers of its texts.
#[derive(Debug, Drop)]
pub struct Entry {
    /// The line of its `\w`, from 1.
    pub line: u32,
    pub word: Id,
    pub category: Id,
    /// None where the gloss is empty or there is none.
    pub gloss: Option<Id>,
    /// In each path there are attributes alone.
    pub features: Vec<Element>,
}

/// A lexicon as it is written: its entries in order, found by their words.
#[derive(Drop)]
pub struct Lexicon {
    entries: Vec<Entry>,
    /// By the number of a word, the numbers of its entries, rising.
    by_word: NumberLists,
}

impl Model for Lexicon {
    ghost use Rattle.std.specs.Prelude.{List, length, ◌<◌, ◌^◌};
    ghost use Rattle.patr_lexicon.specs.declared.lexicon.Entry.{Entry};
    ghost use Rattle.patr_lexicon.specs.Entries.{IsListed};
    ghost use Rattle.std.specs.Coded.{codes};
    ghost use Rattle.patr_grammar.specs.contracts.grammar.Element as element;

    ghost coded = { Prim.hlevel (codes, element.the_row.coded) };

    ghost Value = { List Entry };

    ghost view = { λ l. l.entries.items };

    ghost invariant = { λ l. (length l.entries.items < 2 ^ 32) × IsListed l.entries.items l.by_word };
}

impl Lexicon {
    /// The lexicon of these entries. Fails for want of memory alone.
    pub(crate) fn new(alloc: Global, entries: Vec<Entry>) -> Result<Lexicon, Memory>
        requires { length entries.items < 2 ^ 32 }
        ensures { IfOk result (λ lexicon. lexicon ≡ entries.items) }
    {
        let by_word = numbers_by_word(alloc, &entries)?;
        Ok(Lexicon { entries, by_word })
    }

    /// The entries, in the order in which they are written.
    pub fn entries(&self) -> &[Entry]
        ensures entries { result.now ≡ self.now }
        ensures few { length self.now < 2 ^ 32 }
    {
        &self.entries
    }

    /// The numbers, from 0, of the entries of this word, rising.
    pub fn entries_of(&self, word: Id) -> &[u32]
        ensures { result.now ≡ places (is_of word.0) 0 self.now }
    {
        self.by_word.list(word.0 as usize)
    }
}
