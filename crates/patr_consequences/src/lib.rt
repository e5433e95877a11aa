//! What follows from the definitions for charts and replies: what a restrictor may change, and
//! how many edges the generated sentence has.
#![tactic(auto)]

ghost use Rattle.patr_consequences.specs.Generator.{ChartsOfWordsAreCounted, GeneratedChartsAreCounted, GeneratedTextsAreRead, GeneratedReplies};
ghost use Rattle.patr_consequences.specs.Laws.{RestrictorsKeepAnalyses, RestrictorsKeepLines, LongerRestrictorsGiveNoOtherEdges, LongerRestrictorsRefuseLess, SomeRestrictorDropsAnEdge, BuildsKeepAnalyses};

/// The restrictor does not matter for analyses.
pub fn restrictors_keep_analyses()
    ensures { RestrictorsKeepAnalyses }
{}

/// The restrictor does not matter for the lines of a reply, but that on the number of edges.
pub fn restrictors_keep_lines()
    ensures { RestrictorsKeepLines }
{}

/// With more paths, a restrictor gives no other edges, and no more of them.
pub fn longer_restrictors_give_no_other_edges()
    ensures { LongerRestrictorsGiveNoOtherEdges }
{}

/// With more paths, a restrictor refuses no sentence that it does not refuse with fewer.
pub fn longer_restrictors_refuse_less()
    ensures { LongerRestrictorsRefuseLess }
{}

/// Somewhere a longer restrictor really drops an edge.
pub fn some_restrictor_drops_an_edge()
    ensures { SomeRestrictorDropsAnEdge }
{}

/// What holds of restrictors holds of whatever grammar and lexicon are built.
pub fn builds_keep_analyses()
    ensures { BuildsKeepAnalyses }
{}

/// A sentence of n different words over the generated grammar has one analysis, if it has a word,
/// and 5 n + 2 + n (n - 1) / 2 edges.
pub fn charts_of_words_are_counted()
    ensures { ChartsOfWordsAreCounted }
{}

/// A generated sentence of n words has one analysis, and 5 n + 2 + n (n - 1) / 2 edges.
pub fn generated_charts_are_counted()
    ensures { GeneratedChartsAreCounted }
{}

/// The texts of a generated grammar, lexicon and sentence stand for them, at each stage that has
/// equations.
pub fn generated_texts_are_read()
    ensures { GeneratedTextsAreRead }
{}

/// The reply to a generated sentence lists its one analysis and the number of its edges.
pub fn generated_replies()
    ensures { GeneratedReplies }
{}
