//! The text of a feature structure.
#![tactic(auto)]

mod event;
mod front;
mod items;
mod made;
mod numbers;
mod order;
mod printed;
mod read;
mod read_back;
mod reader;
mod text;
mod walk;

pub use patr_text::{Fault, Id, Memory};
pub use printed::write_printed;
pub use read_back::{NotCanonical, read_canonical};
pub use text::{TextRoom, canonical, write_canonical};

#[cfg(test)]
mod tests;
