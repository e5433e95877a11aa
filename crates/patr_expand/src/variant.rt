//! A variant of a rule.
ghost use Rattle.std.specs.Prelude.{◌<◌, ◌≤◌, length};

use crate::equation::Equation;
use patr_grammar::SymbolText;

/// A variant of a rule.
#[derive(Debug, Drop)]
pub struct RuleVariant {
    /// The rule's number in the grammar, and the variant's in the rule, both from 0.
    pub rule: u32,
    pub variant: u32,
    /// Its constituents, the mother first.
    pub symbols: Vec<SymbolText>,
    /// The equations of the constituents' categories, and then the written ones that name no symbol that is left out.
    pub equations: Vec<Equation>,
    ghost some: { 0 < length symbols.items },
    ghost few: { length symbols.items ≤ 33 },
}
