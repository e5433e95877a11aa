//! What a sentence was parsed to.
ghost use Rattle.std.specs.Prelude.{◌≡◌};
ghost use Rattle.patr_arena.specs.Views.{view_of};
ghost use Rattle.patr_parse.specs.Found.{IsSound};

use patr_arena::{SentenceArena, View};
use patr_chart::Chart;
use std::marker::Model;

/// A sentence's closed chart and its analyses.
#[derive(Drop)]
pub struct Parsed<'a> {
    pub(crate) chart: Chart,
    pub(crate) analyses: Vec<u32>,
    pub(crate) arena: SentenceArena<'a>,
    pub(crate) decided: u64,
}

impl<'a> Model for Parsed<'a> {
    ghost use Rattle.patr_parse.specs.Found.{Found};

    ghost Value = { Found };

    ghost use Rattle.patr_parse.specs.Kept.{found};

    ghost view = { found };
}

impl<'a> Parsed<'a> {
    /// The closed chart.
    pub fn chart(&self) -> &Chart
        ensures { result.now ≡ self.now.chart }
    {
        &self.chart
    }

    /// The edges of the analyses, by rising key.
    pub fn analyses(&self) -> &[u32]
        ensures { result.now ≡ self.now.analyses }
    {
        &self.analyses
    }

    /// The nodes of all edges.
    pub fn view(&self) -> View<'_>
        ensures { view_of result ≡ self.now.shown }
    {
        View::of(&self.arena)
    }

    /// How many pairs of edges were decided.
    pub fn decided(&self) -> u64
        ensures { result ≡ self.now.decided }
    {
        self.decided
    }
}
