//! What shows a structure.
ghost use Rattle.std.specs.Prelude.{◌≡◌, length};
ghost use Rattle.patr_model.specs.Structure.{Node, arcs_of};
ghost use Rattle.patr_arena.specs.Shown.{Shown, IsShown, IsHeld, RefIsHeld, AllHeld, ValueIsHeld, number_of, ref_of, arcs_from, value_of};

use crate::value::{Addr, Feature, Ref, Value};

/// What shows a structure: one list of nodes, block after block. Each node's attributes rise, and its arcs lead to
/// atoms or to nodes before it, so there is no cycle.
pub trait Nodes {
    ghost shown: { Self → Shown };

    /// A node's arcs. The address is held.
    fn arcs(&self, at: Addr) -> &[Feature]
        requires { IsHeld (shown self.now) at.block at.offset }
        ensures same { arcs_from (shown self.now) at.block result.now ≡ arcs_of (shown self.now).structure (Node (number_of (shown self.now) at.block at.offset)) }
        ensures held { AllHeld (shown self.now) at.block result.now };

    /// Where an arc of a node of this block leads. It leads to an atom or a node that is held.
    fn resolve(&self, block: u32, to: Ref) -> Value
        requires { RefIsHeld (shown self.now) block to }
        ensures same { value_of (shown self.now) result ≡ ref_of (shown self.now) block to }
        ensures held { ValueIsHeld (shown self.now) result };

    /// The node's place in the list, from 0. The address is held.
    fn number(&self, at: Addr) -> u64
        requires { IsHeld (shown self.now) at.block at.offset }
        ensures { result ≡ number_of (shown self.now) at.block at.offset };

    /// How many nodes the list has.
    fn count(&self) -> u64
        ensures { result ≡ length (shown self.now).structure };

    /// How many blocks there are.
    fn blocks(&self) -> u32
        ensures { result ≡ length (shown self.now).sizes };

    ghost lawful: { (s : Self) → IsShown (shown s) };
}
