//! How a run ends.
ghost use Rattle.std.specs.Prelude.{◌≡◌};
ghost use Rattle.patr_shell.specs.Outcome.{code_of};

use patr_expand::ExpandCause;
use patr_grammar::GrammarCause;
use patr_lexicon::LexiconCause;

/// Why a grammar is refused.
#[derive(Clone, Copy, Debug, PartialEq, Eq)]
pub enum GrammarTrouble {
    /// Its file has more than 4,194,304 bytes.
    TooLong,
    /// Its text is not one of the notation.
    Text(GrammarCause),
    /// A rule is too large.
    Expand(ExpandCause),
}

/// Why a lexicon is refused.
#[derive(Clone, Copy, Debug, PartialEq, Eq)]
pub enum LexiconTrouble {
    /// Its file has more than 16,777,216 bytes.
    TooLong,
    /// Its text is not one of the notation.
    Text(LexiconCause),
    /// The features of an entry are too large.
    Expand(ExpandCause),
}

/// How a run ends.
#[derive(Clone, Copy, Debug, PartialEq, Eq)]
pub enum Status {
    /// The input was answered to its end, or up to a `:quit`.
    Done,
    /// The words of the command line are not of the form.
    BadWords,
    /// The grammar is refused.
    BadGrammar(GrammarTrouble),
    /// The lexicon is refused.
    BadLexicon(LexiconTrouble),
    /// The input or a file could not be read, or there is no file of that name.
    ReadFault,
    /// The output could not be written.
    WriteFault,
    /// Memory was short.
    Memory,
    /// The input has more than 16,777,216 bytes, and no `:quit` ends within the first so many.
    InputTooLong,
}

impl Status {
    /// The exit status of a process that ends so: 0 to 7, in the order of the variants.
    pub fn code(&self) -> u8
        ensures { result ≡ code_of self.now }
    {
        match self {
            Status::Done => 0,
            Status::BadWords => 1,
            Status::BadGrammar(_) => 2,
            Status::BadLexicon(_) => 3,
            Status::ReadFault => 4,
            Status::WriteFault => 5,
            Status::Memory => 6,
            Status::InputTooLong => 7,
        }
    }
}
