//! The notation of lexicons: the entries that the bytes of a lexicon stand for, or why they stand for none.
#![tactic(auto)]

mod features;
mod gloss;
mod lexicon;
mod line;
mod listing;
mod reading;
mod record;
mod state;
mod words;

pub use lexicon::{Entry, Lexicon, LexiconCause};
pub use reading::read_lexicon;

#[cfg(test)]
mod tests;
