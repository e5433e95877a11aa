//! How many words a text has, and the word where it is the only one.
ghost use Rattle.std.specs.Prelude.{◌≡◌, ◌∷◌, []};
ghost use Rattle.patr_model.specs.Session.{words_of, without_empty};
ghost use Rattle.patr_lexicon.specs.Records.{One, counted, plus};
ghost use Rattle.patr_lexicon.specs.Parts.{words_seen};

use crate::line::cut_word;

/// How many words there are, and the word where it is the only one.
#[derive(Clone, Copy)]
pub enum Words<'a> {
    /// No word.
    Empty,
    /// This word alone.
    One(&'a str),
    /// Two or more.
    Several,
}

impl<'a> Words<'a> {
    /// These words and one more.
    fn and(self, word: &'a str) -> Words<'a>
        ensures { words_seen result ≡ plus (words_seen self.entry) (One word.now) }
    {
        match self {
            Words::Empty => Words::One(word),
            Words::One(_) | Words::Several => Words::Several,
        }
    }

    /// These words and a text without spaces and tabs, if it is not empty.
    fn and_piece(self, piece: &'a str) -> Words<'a>
        ensures { words_seen result ≡ plus (words_seen self.entry) (counted (without_empty (piece.now ∷ []))) }
    {
        if piece.is_empty() {
            return self;
        }
        self.and(piece)
    }

    /// These words and those of a text, cut at spaces and tabs.
    pub fn and_words(self, text: &'a str) -> Words<'a>
        ensures { words_seen result ≡ plus (words_seen self.entry) (counted (words_of text.now)) }
    {
        let mut words = self;
        let mut rest = text;
        'words: loop {
            let (piece, behind) = cut_word(rest);
            words = words.and_piece(piece);
            let Some(behind) = behind else {
                return words;
            };
            rest = behind;
        }
    }
}
