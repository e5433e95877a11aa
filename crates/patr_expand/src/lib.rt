//! The variants of rules and of entries.
#![tactic(auto)]

mod cause;
mod checked;
mod equation;
mod features;
mod measured;
mod names;
mod numbered;
mod right;
mod rule;
mod size;
mod templates;
mod variant;

pub use cause::ExpandCause;
pub use checked::check_templates;
pub use equation::{Equation, SlotPath, Term};
pub use features::expand_features;
pub use rule::expand_rule;
pub use templates::Templates;
pub use variant::RuleVariant;

#[cfg(test)]
mod tests;
