//! A session over a grammar and a lexicon, and the run of the program.
//!
//! `run` is the one call: it takes the words of the command line, the files, the input and the output, and its
//! contract says what it writes and how it ends.
#![tactic(auto)]

mod answer;
mod command;
mod command_line;
mod language;
mod loading;
mod opening;
mod refusal;
mod running;
mod sending;
mod session;
mod state;
mod status;

pub(crate) use language::Language;
pub use patr_expand::ExpandCause;
pub use patr_grammar::GrammarCause;
pub use patr_lexicon::LexiconCause;
pub use patr_pool::{Gate, OpenGate};
pub use patr_reply::reply;
pub use running::run;
pub use status::{GrammarTrouble, LexiconTrouble, Status};

/// Want of memory.
pub(crate) type Memory = std::alloc::AllocError;
