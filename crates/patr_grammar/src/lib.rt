//! The notation of grammars: what the bytes of a grammar stand for, or why they stand for none.
#![tactic(auto)]

mod clauses;
mod elements;
mod equations;
mod grammar;
mod head;
mod lexeme;
mod numbering;
mod place;
mod reader;
mod reading;
mod right;
mod words;

pub use grammar::{
    Element, EquationText, Grammar, GrammarCause, Item, LexicalRule, PathText, RuleText,
    SymbolText, Template, TermText, expected_text,
};
pub use patr_model::What;
pub use reading::{read_elements, read_grammar};

#[cfg(test)]
mod tests;
