//! Each run writes something, and one thing: what the definitions ask for is there.
#![tactic(auto)]

ghost use Rattle.patr_totality.specs.Laws.{UnifiersAreDecided, BuildsAreReady, LeastValuesAreDecided, ChartsAreDecided, PredictionDropsNone, PlainChartsAreSolved, SentencesHaveReplies, SessionsHaveReplies, WhatARunWritesIsOne};

/// Two values have a unifier, or no structure takes both.
pub fn unifiers_are_decided()
    ensures { UnifiersAreDecided }
{}

/// What a build makes is ready for what follows.
pub fn builds_are_ready()
    ensures { BuildsAreReady }
{}

/// Over variants that are ready, each derivation has a least value, or no solution.
pub fn least_values_are_decided()
    ensures { LeastValuesAreDecided }
{}

/// Over variants that are ready, a sentence has more edges than the limit, or its closed chart
/// is a list.
pub fn charts_are_decided()
    ensures { ChartsAreDecided }
{}

/// Over variants that are ready, prediction drops no analysis.
pub fn prediction_drops_none()
    ensures { PredictionDropsNone }
{}

/// Without written equations, categories alone say what the closed chart is.
pub fn plain_charts_are_solved()
    ensures { PlainChartsAreSolved }
{}

/// Over variants that are ready, each sentence has a reply.
pub fn sentences_have_replies()
    ensures { SentencesHaveReplies }
{}

/// So have the lines of a session.
pub fn sessions_have_replies()
    ensures { SessionsHaveReplies }
{}

/// What a run writes, and how it ends, is a function of its words, files and input: as it is
/// built, and at each stage.
pub fn what_a_run_writes_is_one()
    ensures { WhatARunWritesIsOne }
{}
