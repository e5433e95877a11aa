//! What the definitions mean to a reader: how what is read is spelled, what the closed chart is,
//! what holds without written equations, and that alternatives are rules.
#![tactic(auto)]

ghost use Rattle.patr_laws.specs.Alternatives.{AlternativesAreRules};
ghost use Rattle.patr_laws.specs.Bare.{BuildsAreBare, WithoutEquationsNothingChanges};
ghost use Rattle.patr_laws.specs.Charts.{ChartIsLicensed};
ghost use Rattle.patr_laws.specs.Spelling.{ClausesEnd, PathsAreSpelled, EquationsAreSpelled, RulesAreSpelled, GrammarsAreSpelled, FeaturesAreSpelled, EntriesAreSpelled};
ghost use Rattle.patr_laws.specs.Tables.{TablesGive};

/// The closed chart has the edges of the licensed lists.
pub fn chart_is_licensed()
    ensures { ChartIsLicensed }
{}

/// A table of different texts gives symbols with different texts.
pub fn tables_give()
    ensures { TablesGive }
{}

/// Without equations, categories say all that the variants of a build do.
pub fn builds_are_bare()
    ensures { BuildsAreBare }
{}

/// Without written equations, sentences and sessions have the replies that categories alone give.
pub fn without_equations_nothing_changes()
    ensures { WithoutEquationsNothingChanges }
{}

/// A list of clauses that is read leaves no tokens.
pub fn clauses_end()
    ensures { ClausesEnd }
{}

/// A path is read exactly as it is spelled.
pub fn paths_are_spelled()
    ensures { PathsAreSpelled }
{}

/// An equation is read exactly as it is spelled.
pub fn equations_are_spelled()
    ensures { EquationsAreSpelled }
{}

/// Rules are read exactly as they are spelled: equations, colon and dot included.
pub fn rules_are_spelled()
    ensures { RulesAreSpelled }
{}

/// Bytes stand for a grammar exactly where their tokens spell it.
pub fn grammars_are_spelled()
    ensures { GrammarsAreSpelled }
{}

/// Features are read exactly as they are spelled.
pub fn features_are_spelled()
    ensures { FeaturesAreSpelled }
{}

/// Lines of words and their categories are read as these entries.
pub fn entries_are_spelled()
    ensures { EntriesAreSpelled }
{}

/// A rule whose alternatives are written out as several rules gives the same trees, and the same
/// replies where they stand at the front of its right side.
pub fn alternatives_are_rules()
    ensures { AlternativesAreRules }
{}
