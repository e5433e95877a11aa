//! Sentences: the closed chart of a sentence, and its analyses.
#![tactic(auto)]

mod analyses;
mod closing;
mod draft;
mod parse;
mod parsed;
mod prediction;
mod rounds;
mod sentence;
mod work;

pub use parse::{ParseCause, parse_alone, parse_words};
pub use parsed::Parsed;
pub use patr_pool::{Gate, OpenGate};
pub use patr_text::{Fault, Memory};
pub use sentence::{known_word, words_of};

#[cfg(test)]
mod tests;
