//! Whether a host has room for what a reaction makes of it, counted before any of it is made.
ghost use Rattle.std.specs.Prelude.{◌≡◌, ◌↔◌, ◌≤◌, ◌<◌, ◌+◌, ◌^◌, [], length, IsTrue, MatchOption};
ghost use Rattle.bg_base.specs.Limits.{largest_counter};
ghost use Rattle.bg_rewriting.specs.Rewriting.{late_count};
ghost use Rattle.bg_rules.specs.Hosts.{IsHost};
ghost use Rattle.bg_index.specs.Growth.{HasNumbers};
ghost use Rattle.bg_index.specs.Readings.{AreLate, boundary_of};

use crate::IndexedHost;
use crate::late::count_late;
use crate::reading::Reading;
use bg_base::limits::{LARGEST_COUNTER, MOST_HOST_NODES};
use bg_rules::Rule;

/// The numbers that the next node and the next edge of a host will get, once a reaction took place.
#[derive(Clone, Copy)]
pub struct Counters {
    pub next_node: u32,
    pub next_edge: u32,
}

/// The counters after the reaction by the rule; none where the nodes after it, or a counter, pass their limit. Costs time in
/// proportion to the entries of the rule's map, and takes no memory.
pub fn counters_after(
    host: &IndexedHost,
    rule: &Rule,
    reading: &Reading,
    gone: &[u32],
) -> Option<Counters>
    requires is_host { IsHost host.now }
    requires late { AreLate rule.now.map reading.now.late.items }
    ensures { MatchOption result
        (HasNumbers host.now rule.now (late_count (boundary_of reading.now).parts [] rule.now.map) gone.now → ⊥)
        (λ counters. HasNumbers host.now rule.now (late_count (boundary_of reading.now).parts [] rule.now.map) gone.now
        × (counters.next_node ≡ host.now.next_node + length rule.now.reactum.nodes + late_count (boundary_of reading.now).parts [] rule.now.map)
        × (counters.next_edge ≡ host.now.next_edge + length rule.now.reactum.edges)) }
{
    let late = count_late(reading, rule.map(), LARGEST_COUNTER)?;
    counters_with(host, rule, gone, late)
}

/// The counters after the reaction by the rule, where the late copies have so many nodes; none where the nodes after it, or a
/// counter, pass their limit.
fn counters_with(host: &IndexedHost, rule: &Rule, gone: &[u32], late: u32) -> Option<Counters>
    requires is_host { IsHost host.now }
    ensures { MatchOption result
        (HasNumbers host.now rule.now late gone.now → ⊥)
        (λ counters. HasNumbers host.now rule.now late gone.now
        × (counters.next_node ≡ host.now.next_node + length rule.now.reactum.nodes + late)
        × (counters.next_edge ≡ host.now.next_edge + length rule.now.reactum.edges)) }
{
    let made = u64::from(rule.reactum().nodes.len()) + u64::from(late);
    if !is_room(MOST_HOST_NODES, host.node_count(), made, gone.len()) {
        return None;
    }
    let next_node = counter_after(host.next_node(), made)?;
    let next_edge = counter_after(host.next_edge(), u64::from(rule.reactum().edges.len()))?;
    Some(Counters {
        next_node,
        next_edge,
    })
}

/// Whether so many more have room beside those that are there, when so many of them are gone and `most` may be there.
pub fn is_room(most: u32, there: u32, more: u64, gone: usize) -> bool
    requires few_more { more < 2 ^ 33 }
    ensures { IsTrue result ↔ (there + more ≤ most + gone) }
{
    let all = u64::from(there) + more;
    all <= u64::from(most) || all - u64::from(most) <= gone as u64
}

/// The counter after so many new numbers, none where it passes its limit.
fn counter_after(counter: u32, more: u64) -> Option<u32>
    requires few_more { more < 2 ^ 33 }
    ensures { MatchOption result (largest_counter < counter + more) (λ next. (next ≡ counter + more) × (next ≤ largest_counter)) }
{
    let next = u64::from(counter) + more;
    if next > u64::from(LARGEST_COUNTER) {
        return None;
    }
    Some(next as u32)
}
