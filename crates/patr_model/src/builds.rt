//! Laws of what a build makes of a grammar and a lexicon.

ghost use Rattle.patr_model.specs.Builds.{BuildsIgnoreWords, BuildsIgnoreNumbers, BuildsStateCategories, FollowingIsCategory, SolvedGoByCategory};

/// What a build makes does not depend on what stands for the words.
pub fn builds_ignore_words()
    ensures { BuildsIgnoreWords }
{}

/// What a build makes is the same under each numbering.
pub fn builds_ignore_numbers()
    ensures { BuildsIgnoreNumbers }
{}

/// The variants that a build makes begin with their categories, and their equations speak of what is there.
pub fn builds_state_categories()
    ensures { BuildsStateCategories }
{}

/// Where categories alone are compared, prediction goes by the categories of the variants.
pub fn following_is_category()
    ensures { FollowingIsCategory }
{}

/// What has a solution goes by categories, and so do whole analyses.
pub fn solved_go_by_category()
    ensures { SolvedGoByCategory }
{}
