//! The numbers of nodes.
ghost use Rattle.std.specs.Prelude.{◌≡◌, IfOk, suc, option_map, nat_eq};
ghost use Rattle.patr_model.specs.Stack.{met_again, opened};
ghost use Rattle.patr_model.specs.Text.{kept, place_in};
ghost use Rattle.patr_canon.specs.Numbers.{AreOnce};
ghost use Rattle.patr_canon.specs.Walks.{IsDone, events_seen};

use crate::event::Event;
use indexmap::IndexSet;
use patr_text::Memory;
use std::collections::HashSet;

/// Makes `again` the nodes that are met again.
pub(crate) fn met_again(events: &[Event], again: &mut HashSet<u64>) -> Result<(), Memory>
    ensures { IfOk result (λ _. IsDone again.new (met_again (events_seen events.now))) }
{
    again.clear();
    for event in events {
        let Some(node) = event.again() else {
            continue;
        };
        again.insert(node)?;
    }
    Ok(())
}

/// Makes `numbered` the nodes that have a number, in the order of their first visits: those that are met again.
pub(crate) fn number_nodes(
    events: &[Event],
    again: &HashSet<u64>,
    numbered: &mut IndexSet<u64>,
) -> Result<(), Memory>
    requires again { IsDone again.now (met_again (events_seen events.now)) }
    requires once { AreOnce (opened (events_seen events.now)) }
    ensures { IfOk result (λ _. numbered.new.keys ≡ kept (met_again (events_seen events.now)) (opened (events_seen events.now))) }
{
    numbered.clear();
    if again.is_empty() {
        return Ok(());
    }
    for event in events {
        let Some(node) = event.opened() else {
            continue;
        };
        if !again.contains(&node) {
            continue;
        }
        numbered.insert(node)?;
    }
    Ok(())
}

/// A node's number, from 1, where it has one.
pub(crate) fn number_of(numbered: &IndexSet<u64>, node: u64) -> Option<usize>
    ensures { result ≡ option_map (λ place. suc place) (place_in numbered.now.keys node) }
{
    if numbered.len() == 0 {
        return None;
    }
    let place = numbered.get_index_of(&node)?;
    Some(place + 1)
}
