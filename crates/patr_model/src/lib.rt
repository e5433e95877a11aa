//! The definitions of a unification grammar, and laws about them.
#![tactic(auto)]

mod builds;
mod field;
mod lookahead;
mod notation;

ghost use Rattle.patr_model.specs.Laws.{SubsumptionIsOrder, UnifiersAreSame, LeastValuesExtend, UnifierIsLeastValue, SameAsUnifier, NoMoreThanAll, OneReply, PlainIsSolvable, CategoriesAreOneAll, CanonicalTexts, TextsAreRead, ReadingIsBack, LeastTextsAreOneAll, WalksAreWhole, Printing, WalksByStack, MapsByPairsAll, BuildsByStack, SortedIsInOrder, ReadsByItemsAll, TextsAreLocal};
ghost use Rattle.patr_model.specs.Keys.{KeysTell};
ghost use Rattle.patr_model.specs.Rounds.{RoundsFindChart, PairsAreCountedAll};
ghost use Rattle.patr_model.specs.EquationStructures.{EquationsAreStructures};
ghost use Rattle.patr_model.specs.Variants.{VariantSteps, LeavesAreRules};
ghost use Rattle.patr_model.specs.Chains.{ChainSteps};
ghost use Rattle.patr_model.specs.Longer.{LongerKeeps};
ghost use Rattle.patr_model.specs.Openings.{OpeningsAreOne, SessionRepliesBegin, TablesAreNumbered};
ghost use Rattle.patr_model.specs.Agreeing.{ReadingIgnoresNumbers};
ghost use Rattle.patr_model.specs.Renaming.{RepliesIgnoreNumbers, RunsIgnoreNumbers};
ghost use Rattle.patr_model.specs.Builds.{VariantsIgnoreNumbers};

pub use builds::{
    builds_ignore_numbers, builds_ignore_words, builds_state_categories, following_is_category,
    solved_go_by_category,
};
pub use field::{LexiconLine, Marker};
pub use lookahead::{Kind, Lookahead};
pub use notation::{Keyword, What};

/// Subsumption is an order.
pub fn subsumption_is_order()
    ensures { SubsumptionIsOrder }
{}

/// There is one unifier, up to which structure it is.
pub fn unifiers_are_same()
    ensures { UnifiersAreSame }
{}

/// What a least value maps into extends to a solution of the whole derivation.
pub fn least_values_extend()
    ensures { LeastValuesExtend }
{}

/// The unifier of two edges' least values gives the least value of the longer tree.
pub fn unifier_is_least_value()
    ensures { UnifierIsLeastValue }
{}

/// What is the same as a unifier is one.
pub fn same_as_unifier()
    ensures { SameAsUnifier }
{}

/// A list without repeats is no longer than one that has its members.
pub fn no_more_than_all()
    ensures { NoMoreThanAll }
{}

/// A sentence has one reply.
pub fn one_reply()
    ensures { OneReply }
{}

/// Without written equations, categories alone say what has a solution.
pub fn plain_is_solvable()
    ensures { PlainIsSolvable }
{}

/// A category is the same in each least value.
pub fn categories_are_one()
    ensures { CategoriesAreOneAll }
{}

/// Two values have one canonical text exactly where they are the same.
pub fn canonical_texts()
    ensures { CanonicalTexts }
{}

/// A text is read exactly where it is that of some value.
pub fn texts_are_read()
    ensures { TextsAreRead }
{}

/// What is read from a value's text is the same as the value.
pub fn reading_is_back()
    ensures { ReadingIsBack }
{}

/// The least values of a derivation have one text.
pub fn least_texts_are_one()
    ensures { LeastTextsAreOneAll }
{}

/// A walk is done with the nodes that are reached, and the shared ones have numbers.
pub fn walks_are_whole()
    ensures { WalksAreWhole }
{}

/// What prints without quotes, and how numbers print.
pub fn printing()
    ensures { Printing }
{}

/// The walk of a value as a loop over a stack.
pub fn walks_by_stack()
    ensures { WalksByStack }
{}

/// Whether one value maps into another, by a list of pairs.
pub fn maps_by_pairs()
    ensures { MapsByPairsAll }
{}

/// A tree is built from its events, one after another.
pub fn builds_by_stack()
    ensures { BuildsByStack }
{}

/// Arcs that are sorted are the arcs in order.
pub fn sorted_is_in_order()
    ensures { SortedIsInOrder }
{}

/// A canonical text is read event by event.
pub fn reads_by_items()
    ensures { ReadsByItemsAll }
{}

/// A canonical text depends on the texts of the symbols that are there, and on the order.
pub fn texts_are_local()
    ensures { TextsAreLocal }
{}

/// A key tells its derivation, also where more stands behind it.
pub fn keys_tell()
    ensures { KeysTell }
{}

/// The rounds find the closed chart, or pass the limit.
pub fn rounds_find_chart()
    ensures { RoundsFindChart }
{}

/// The pairs that the rounds decide are the adjacent ones, each once.
pub fn pairs_are_counted()
    ensures { PairsAreCountedAll }
{}

/// An equation is a structure that maps into exactly the values at which it holds.
pub fn equations_are_structures()
    ensures { EquationsAreStructures }
{}

/// A rule variant's least value is found equation by equation.
pub fn variants_are_built()
    ensures { VariantSteps }
{}

/// An entry without lexical rules is solved like a rule of one constituent.
pub fn leaves_are_rules()
    ensures { LeavesAreRules }
{}

/// A chain's least value is found rule by rule.
pub fn chains_are_built()
    ensures { ChainSteps }
{}

/// Least values and unifiers stay what they are where nodes are appended, and a leaf's and a rule's do so at every position.
pub fn longer_keeps()
    ensures { LongerKeeps }
{}

/// The reply to a sentence does not depend on how symbols are numbered.
pub fn replies_ignore_numbers()
    ensures { RepliesIgnoreNumbers }
{}

/// At each stage the text of a run does not depend on how symbols are numbered.
pub fn runs_ignore_numbers()
    ensures { RunsIgnoreNumbers }
{}

/// The variants of a rule do not depend on how symbols are numbered.
pub fn variants_ignore_numbers()
    ensures { VariantsIgnoreNumbers }
{}

/// At each stage the words and the files of a run come to one session, or one refusal.
pub fn openings_are_one()
    ensures { OpeningsAreOne }
{}

/// The replies to the first lines of a session begin each of its texts.
pub fn replies_begin()
    ensures { SessionRepliesBegin }
{}

/// Each table of different texts has a numbering that agrees with it.
pub fn tables_are_numbered()
    ensures { TablesAreNumbered }
{}

/// Tokens stand for one grammar, by their texts or by the numbers of these.
pub fn reading_ignores_numbers()
    ensures { ReadingIgnoresNumbers }
{}
