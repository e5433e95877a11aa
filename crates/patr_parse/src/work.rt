//! The tasks of a round: each decides an edge with its partners, and drafts what they make.
ghost use Rattle.std.specs.Prelude.{◌≡◌, ◌≢◌, ◌+◌, ◌*◌, ◌<◌, ◌≤◌, ◌∷◌, [], true, false, cond, None, length, IfNone, IfOk, IfSome};
ghost use Rattle.patr_model.specs.Structure.{Node, Structure, at};
ghost use Rattle.patr_model.specs.Subsumption.{TakesBoth};
ghost use Rattle.patr_model.specs.Derivation.{Extend};
ghost use Rattle.patr_model.specs.Solution.{IsSolvable};
ghost use Rattle.patr_arena.specs.Shown.{IsHeld, ValueIsHeld, number_of, value_of};
ghost use Rattle.patr_unify.specs.Deciding.{IsSettledFor};
ghost use Rattle.patr_chart.specs.Charted.{derivations, tree};
ghost use Rattle.patr_library.specs.Stored.{rules_of};
ghost use Rattle.patr_parse.specs.Found.{daughters};
ghost use Rattle.patr_parse.specs.Drafts.{HasCombined, IsDecided, TaskGave, drafts_of, is_stop};
ghost use Rattle.patr_parse.specs.Joining.{AreWithin};
ghost use Rattle.patr_parse.specs.Tasks.{ArePartners, HasLarge, IsReady};

use crate::draft::Draft;
use patr_arena::{Addr, Id, Memory, Nodes, Value};
use patr_chart::{Back, Chart, Edge, EdgeKind};
use patr_library::Library;
use patr_scratch::{Scratch, Side};
use patr_unify::{Decision, Steps, copy, decide};
use std::alloc::{AllocError, Global};
use std::marker::Brand;
use std::sync::ledger::{Blank, Ledger};

/// What the tasks of a round read.
#[derive(Drop)]
pub(crate) struct RoundWork<'r, N> {
    pub(crate) library: &'r Library,
    pub(crate) chart: &'r Chart,
    pub(crate) nodes: &'r N,
    /// The most edges, and the most nodes of an edge's derivation.
    pub(crate) limit: u32,
    /// The first edge that no round had.
    pub(crate) worked: u32,
}

/// What a worker has for itself: the marks of unifications, and how many pairs it decided.
#[derive(Drop)]
pub(crate) struct Local {
    pub(crate) scratch: Scratch,
    pub(crate) decided: u64,
}

/// What came of a pair of edges, or of a task.
#[derive(Drop)]
pub(crate) enum Outcome<T> {
    /// No edge.
    Nothing,
    /// What was made.
    Made(T),
    /// An edge with more nodes than the limit: nothing more needs to be done.
    Stop,
}

/// How many nodes two values reach at most, and how many arcs these have.
#[derive(Clone, Copy)]
struct Reach {
    nodes: u64,
    arcs: u64,
}

/// The place where an active edge wants a daughter, and what is to be put there.
#[derive(Clone, Copy)]
struct Pair {
    left: Addr,
    slot: Id,
    right: Value,
    reach: Reach,
}

/// The slot of the last daughter that is there.
pub(crate) fn last_slot(kind: EdgeKind) -> Id
    ensures { result.0 ≡ daughters kind }
{
    match kind {
        EdgeKind::Entry { .. } => Id(0),
        EdgeKind::Rule { seen, .. } => Id(seen),
    }
}

/// How much the roots of two edges reach at most, what both reach counted twice.
fn reach_of(first: &Edge, second: &Edge) -> Result<Reach, Memory>
    ensures { IfOk result (λ reach. (reach.nodes ≡ first.now.nodes + second.now.nodes)
        × (reach.arcs ≡ first.now.arcs + second.now.arcs)) }
{
    let nodes = first.nodes.checked_add(second.nodes).ok_or(AllocError)?;
    let arcs = first.arcs.checked_add(second.arcs).ok_or(AllocError)?;
    Ok(Reach { nodes, arcs })
}

/// The side whose node is forwarded where either may be: that of the edge that reaches no more. So of a long structure
/// and a short one that have a node in common the long one stays where it is. No promise rests on it.
fn smaller_side(active: &Edge, passive: &Edge) -> Side {
    if passive.nodes <= active.nodes {
        Side::Right
    } else {
        Side::Left
    }
}

/// Whether a pair has a unifier. Then the marks in the scratch stand for it.
///
/// Before it decides, it takes the room for what both reach where the scratch has less: so most calls take no memory.
fn has_unifier<N: Nodes, L: Ledger>(
    nodes: &N,
    pair: Pair,
    scratch: &mut Scratch,
    steps: &mut Steps<L>,
) -> Result<bool, Memory>
    requires left { IsHeld (N.shown nodes.now) pair.left.block pair.left.offset }
    requires right { ValueIsHeld (N.shown nodes.now) pair.right }
    requires slot { at (N.shown nodes.now).structure
        (Node (number_of (N.shown nodes.now) pair.left.block pair.left.offset)) (pair.slot.0 ∷ []) ≢
        None }
    requires within { AreWithin (N.shown nodes.now)
        (Node (number_of (N.shown nodes.now) pair.left.block pair.left.offset))
        (value_of (N.shown nodes.now) pair.right) pair.reach.nodes pair.reach.arcs }
    ensures some { IfOk result (λ found. found ≡ true → IsSettledFor (N.shown nodes.now) scratch.new
        (number_of (N.shown nodes.now) pair.left.block pair.left.offset) (pair.slot.0 ∷ [])
        (value_of (N.shown nodes.now) pair.right)) }
    ensures none { IfOk result (λ found. found ≡ false → (G : Structure) (g : _) →
        TakesBoth (N.shown nodes.now).structure
        (Node (number_of (N.shown nodes.now) pair.left.block pair.left.offset)) (pair.slot.0 ∷ [])
        (N.shown nodes.now).structure (value_of (N.shown nodes.now) pair.right) G g → ⊥) }
    ensures steps { IfOk result (λ _. steps.new ≡ steps.old + 1) }
{
    scratch.make_room(nodes.count(), pair.reach.nodes, pair.reach.arcs)?;
    match decide(nodes, pair.left, &[pair.slot], pair.right, scratch, steps) {
        Decision::Solvable => Ok(true),
        Decision::NoUnifier => Ok(false),
    }
}

/// What a task comes to that made these drafts.
fn outcome_of(made: Vec<Draft>) -> Outcome<Vec<Draft>>
    ensures drafts { drafts_of result ≡ made.items }
    ensures goes_on { is_stop result ≡ false }
{
    if made.is_empty() {
        Outcome::Nothing
    } else {
        Outcome::Made(made)
    }
}

/// Of edge k, which is passive or not, and another edge the active one, and then the passive one.
fn ordered(passive: bool, k: u32, other: u32) -> (u32, u32)
    ensures active { result.0 ≡ cond passive other k }
    ensures passive { result.1 ≡ cond passive k other }
{
    if passive { (other, k) } else { (k, other) }
}

impl<'r, N: Nodes> RoundWork<'r, N> {
    /// Decides whether an active edge and a passive one that starts where it ends have a unifier, and drafts their edge.
    /// `Stop` says that the derivation of both has more nodes than the limit; then nothing was copied.
    fn combine<L: Ledger>(
        &self,
        alloc: Global,
        pair: (u32, u32),
        scratch: &mut Scratch,
        steps: &mut Steps<L>,
    ) -> Result<Outcome<Draft>, Memory>
        requires partners { ArePartners self.now.chart.now.edges pair.0 pair.1 }
        requires ready { IsReady (rules_of self.now.library.now) self.now.library.now
            (N.shown self.now.nodes.now) self.now.limit self.now.chart.now.edges }
        requires limit { self.now.limit ≤ 200000 }
        ensures combined { IfOk result (λ outcome. HasCombined (rules_of self.now.library.now)
            (N.shown self.now.nodes.now) self.now.chart.now.words self.now.chart.now.edges
            self.now.limit
            (Extend (tree self.now.chart.now.edges pair.0) (tree self.now.chart.now.edges pair.1))
            outcome) }
        ensures steps { IfOk result (λ _. steps.new ≡ steps.old + 1) }
    {
        let (active, passive) = pair;
        let first = *self.chart.edge(active);
        let second = *self.chart.edge(passive);
        let kind = first.kind.with_daughter();
        let Value::Node(left) = first.root else {
            unreachable!()
        };
        let place = Pair {
            left,
            slot: last_slot(kind),
            right: second.root,
            reach: reach_of(&first, &second)?,
        };
        scratch.set_goes_first(smaller_side(&first, &second));
        if !has_unifier(self.nodes, place, scratch, steps)? {
            return Ok(Outcome::Nothing);
        }
        let size = first.size + second.size;
        if size > self.limit as u64 {
            return Ok(Outcome::Stop);
        }
        let made = copy(alloc, self.nodes, left, scratch)?;
        let edge = Edge {
            kind,
            end: second.end,
            back: Some(Back { active, passive }),
            nodes: made.nodes,
            arcs: made.arcs,
            size,
            ..first
        };
        Ok(Outcome::Made(Draft {
            edge,
            block: made.block,
            root: made.root,
        }))
    }

    /// Decides edge k, passive or not, with an earlier one, and puts what they make behind the other drafts. False where
    /// their edge has more nodes than the limit.
    fn decide_one<L: Ledger>(
        &self,
        alloc: Global,
        pair: (u32, u32),
        scratch: &mut Scratch,
        made: &mut Vec<Draft>,
        steps: &mut Steps<L>,
    ) -> Result<bool, Memory>
        requires partners { ArePartners self.now.chart.now.edges pair.0 pair.1 }
        requires ready { IsReady (rules_of self.now.library.now) self.now.library.now
            (N.shown self.now.nodes.now) self.now.limit self.now.chart.now.edges }
        requires limit { self.now.limit ≤ 200000 }
        ensures decided { IfOk result (λ small. IsDecided (rules_of self.now.library.now)
            (N.shown self.now.nodes.now) self.now.chart.now.words self.now.chart.now.edges
            self.now.limit
            (Extend (tree self.now.chart.now.edges pair.0) (tree self.now.chart.now.edges pair.1))
            made.old.items made.new.items small) }
        ensures steps { IfOk result (λ _. steps.new ≡ steps.old + 1) }
    {
        match self.combine(alloc, pair, scratch, steps)? {
            Outcome::Nothing => Ok(true),
            Outcome::Stop => Ok(false),
            Outcome::Made(draft) => {
                made.push(draft)?;
                Ok(true)
            }
        }
    }

    /// Decides the pairs of edge k with its partners, drafts the edges that they give, and counts each pair that it decides.
    /// None where one edge has more nodes than the limit.
    fn decide_pairs<L: Ledger>(
        &self,
        alloc: Global,
        k: u32,
        local: &mut Local,
        blank: Blank,
    ) -> Result<Option<Vec<Draft>>, Memory>
        requires k { k < length self.now.chart.now.edges }
        requires ready { IsReady (rules_of self.now.library.now) self.now.library.now
            (N.shown self.now.nodes.now) self.now.limit self.now.chart.now.edges }
        requires limit { (self.now.limit ≤ 200000) × (length self.now.chart.now.edges ≤
            self.now.limit) }
        requires count { local.old.decided ≤ k * 200000 }
        requires ledger { (blank.name ≡ L.name) × (blank.parts ≡ L.parts) × (0 < blank.parts) }
        ensures some { IfOk result (λ found. IfSome found (λ made. TaskGave (rules_of
            self.now.library.now)
            (N.shown self.now.nodes.now) self.now.chart.now.words self.now.chart.now.edges
            self.now.limit
            k made.items local.old.decided local.new.decided)) }
        ensures none { IfOk result (λ found. IfNone found (HasLarge
            (IsSolvable (rules_of self.now.library.now)) (rules_of self.now.library.now)
            self.now.limit
            (derivations self.now.chart.now.edges))) }
    {
        let passive = self.chart.edge(k).is_passive();
        let mut steps = Steps::<L>::new(blank);
        let mut made = Vec::new(alloc);
        for other in self.chart.partners(k) {
            let pair = ordered(passive, k, *other);
            if !self.decide_one(alloc, pair, &mut local.scratch, &mut made, &mut steps)? {
                return Ok(None);
            }
            local.decided += 1;
        }
        Ok(Some(made))
    }

    /// Does the task of an edge, counted from the first that no round had: decides its pairs with its partners. `Stop` says
    /// that one edge has more nodes than the limit.
    pub(crate) fn one(
        &self,
        alloc: Global,
        _worker: u32,
        local: &mut Local,
        task: u64,
    ) -> Result<Outcome<Vec<Draft>>, Memory>
        requires task { self.now.worked + task < length self.now.chart.now.edges }
        requires ready { IsReady (rules_of self.now.library.now) self.now.library.now
            (N.shown self.now.nodes.now) self.now.limit self.now.chart.now.edges }
        requires limit { (self.now.limit ≤ 200000) × (length self.now.chart.now.edges ≤
            self.now.limit) }
        requires count { local.old.decided ≤ (self.now.worked + task) * 200000 }
        ensures gave { IfOk result (λ outcome. is_stop outcome ≡ false → TaskGave (rules_of
            self.now.library.now)
            (N.shown self.now.nodes.now) self.now.chart.now.words self.now.chart.now.edges
            self.now.limit
            (self.now.worked + task) (drafts_of outcome) local.old.decided local.new.decided) }
        ensures large { IfOk result (λ outcome. is_stop outcome ≡ true → HasLarge
            (IsSolvable (rules_of self.now.library.now)) (rules_of self.now.library.now)
            self.now.limit
            (derivations self.now.chart.now.edges)) }
    {
        let k = self.worked + task as u32;
        match self.decide_pairs::<Brand>(alloc, k, local, Blank::new(1))? {
            None => Ok(Outcome::Stop),
            Some(made) => Ok(outcome_of(made)),
        }
    }
}
