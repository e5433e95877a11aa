//! The chart: edges, and indexes by which the partners of an edge are found.
ghost use Rattle.std.specs.Prelude.{◌≡◌, ◌<◌, [], ◌∷◌, ◌++◌, length, map, slice_get, Some, IfOk, MatchResult, true, false};
ghost use Rattle.patr_model.specs.Derivation.{key, start, end};
ghost use Rattle.patr_chart.specs.Edges.{item_of};
ghost use Rattle.patr_chart.specs.Charted.{IsEdgeAfter, AreEdges, partners, tree};
ghost use Rattle.patr_chart.specs.Pending.{AreHeld, IsStep};
ghost use Rattle.patr_chart.specs.Lists.{HasPositions, neighbours, IsEntered};

use crate::Memory;
use crate::edge::Edge;
use crate::key::KeyItem;
use patr_lists::NumberLists;
use std::alloc::Global;
use std::marker::Model;

/// The edges in the order in which they came.
#[derive(Drop)]
pub struct Chart {
    words: u32,
    edges: Vec<Edge>,
    // how many partners each edge had when it came
    counts: Vec<u32>,
    // by position, the passive edges that start there and the active ones that end there
    starting: NumberLists,
    ending: NumberLists,
}

// A tree whose key is still to be written, and where its root ends.
#[derive(Clone, Copy)]
struct Pending {
    number: u32,
    end: u32,
}

impl Model for Chart {
    ghost use Rattle.patr_chart.specs.Charted.{Charted};

    ghost Value = { Charted };

    ghost use Rattle.patr_chart.specs.Kept.{charted, IsKept};

    ghost view = { charted };

    ghost invariant = { IsKept };
}

// The numbers of the edges that are adjacent to this one, rising.
fn neighbours<'a>(starting: &'a NumberLists, ending: &'a NumberLists, edge: &Edge) -> &'a [u32]
    ensures { result.now ≡ neighbours starting.now ending.now edge.now }
{
    if edge.is_passive() {
        ending.list(edge.start as usize)
    } else {
        starting.list(edge.end as usize)
    }
}

// Puts an edge's number where its neighbours look for it. False where there is no room, and then nothing changes.
fn enter(starting: &mut NumberLists, ending: &mut NumberLists, edge: &Edge, number: u32) -> bool
    requires { HasPositions starting.old ending.old edge.now }
    ensures entered { result ≡ true → IsEntered edge.now number starting.old ending.old starting.new ending.new }
    ensures same { result ≡ false → (starting.new ≡ starting.old) × (ending.new ≡ ending.old) }
{
    if edge.is_passive() {
        starting.put(edge.start as usize, number)
    } else {
        ending.put(edge.end as usize, number)
    }
}

impl Chart {
    /// A chart without edges.
    pub fn new(alloc: Global, words: u32) -> Result<Chart, Memory>
        ensures { IfOk result (λ chart. (chart.words ≡ words) × (chart.edges ≡ [])) }
    {
        let positions = words as usize + 1;
        let starting = NumberLists::empty(alloc, positions)?;
        let ending = NumberLists::empty(alloc, positions)?;
        // most charts have more edges than this, and few have to be moved to a longer list more than twice
        let edges = Vec::with_capacity(alloc, 4 * positions)?;
        let counts = Vec::with_capacity(alloc, 4 * positions)?;
        Ok(Chart {
            words,
            edges,
            counts,
            starting,
            ending,
        })
    }

    /// The number of edges.
    pub fn len(&self) -> u32
        ensures { result ≡ length self.now.edges }
    {
        self.edges.len() as u32
    }

    /// An edge by its number.
    pub fn edge(&self, k: u32) -> &Edge
        requires { k < length self.now.edges }
        ensures there { slice_get self.now.edges k ≡ Some result.now }
        ensures edges { AreEdges self.now.words self.now.edges }
        ensures derived { (start (tree self.now.edges k) ≡ result.now.start) × (end (tree self.now.edges k) ≡ result.now.end) }
    {
        &self.edges[k as usize]
    }

    /// Puts an edge behind the others, and answers its number. Gives it back where there is no room.
    pub fn push_edge(&mut self, edge: Edge) -> Result<u32, Edge>
        requires { IsEdgeAfter self.old.words self.old.edges edge }
        ensures { MatchResult result (λ k. (k ≡ length self.old.edges) × (self.new.words ≡ self.old.words) × (self.new.edges ≡ self.old.edges ++ edge ∷ [])) (λ back. (back ≡ edge) × (self.new ≡ self.old)) }
    {
        let number = self.edges.len() as u32;
        if number == u32::MAX || self.edges.reserve(1).is_err() || self.counts.reserve(1).is_err() {
            return Err(edge);
        }
        let count = neighbours(&self.starting, &self.ending, &edge).len();
        if !enter(&mut self.starting, &mut self.ending, &edge, number) {
            return Err(edge);
        }
        self.edges.push_reserved(edge);
        self.counts.push_reserved(count as u32);
        Ok(number)
    }

    /// The edges below k that are adjacent to edge k, rising.
    pub fn partners(&self, k: u32) -> &[u32]
        requires { k < length self.now.edges }
        ensures { result.now ≡ partners self.now.edges k }
    {
        let edge = &self.edges[k as usize];
        let count = self.counts[k as usize] as usize;
        &neighbours(&self.starting, &self.ending, edge)[..count]
    }

    // Writes the root of the next tree, or puts the two trees of which it was made in its place.
    fn write_next(
        &self,
        next: Pending,
        left: &mut Vec<Pending>,
        out: &mut Vec<KeyItem>,
    ) -> Result<(), Memory>
        requires next { next.number < length self.now.edges }
        requires held { AreHeld (length self.now.edges) left.old.items }
        ensures { IfOk result (λ _. IsStep self.now.edges (left.old.items ++ next ∷ []) out.old.items left.new.items out.new.items) }
    {
        let edge = self.edges[next.number as usize];
        match edge.back {
            None => {
                out.push(KeyItem::of(edge.kind, next.end))?;
                Ok(())
            }
            Some(back) => {
                let end = self.edges[back.passive as usize].end;
                left.push(Pending {
                    number: back.active,
                    end: next.end,
                })?;
                left.push(Pending {
                    number: back.passive,
                    end,
                })?;
                Ok(())
            }
        }
    }

    /// The key of edge k's derivation.
    pub fn derivation(&self, alloc: Global, k: u32) -> Result<Vec<KeyItem>, Memory>
        requires { k < length self.now.edges }
        ensures { IfOk result (λ items. map item_of items.items ≡ key (tree self.now.edges k)) }
    {
        let end = self.edge(k).end;
        let mut out = Vec::new(alloc);
        let mut left = Vec::new(alloc);
        left.push(Pending { number: k, end })?;
        while let Some(next) = left.pop() {
            self.write_next(next, &mut left, &mut out)?;
        }
        out.reverse();
        Ok(out)
    }
}
