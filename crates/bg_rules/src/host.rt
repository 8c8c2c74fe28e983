//! Hosts: bigraphs that rules change.
ghost use Rattle.std.specs.Prelude.{◌≡◌, ◌≤◌};
ghost use Rattle.std.specs.List.Sorted.{IsStrictlySortedBy};
ghost use Rattle.std.specs.Ordering.{nat_cmp};
ghost use Rattle.bg_base.specs.Limits.{largest_counter};
ghost use Rattle.bg_base.specs.Bigraph.{node_cmp};
ghost use Rattle.bg_base.specs.Translation.{node_numbers};
ghost use Rattle.bg_rules.specs.Hosts.{IsHost, IsHostBig, fresh_host, past_largest};
ghost use Rattle.bg_rules.specs.Limits.{IsWithinLimits};

use bg_base::{Big, NodeRow};
use bg_lists::{Duplicate, Mem};
use std::alloc::Global;
use std::marker::Model;

/// A host: a ground bigraph, whose outer names are plain and none of whose edges is idle, with the numbers that its
/// next new node and its next new edge will get. Those are above every number in it and at most 2,147,483,648; it has
/// at most 65,536 nodes and at most 65,536 edges. A contract sees the bigraph and the two counters.
#[derive(Debug, Drop)]
pub struct Host {
    big: Big,
    next_node: u32,
    next_edge: u32,
}

impl Model for Host {
    ghost use Rattle.bg_rules.specs.Reaction.{HostState};
    ghost use Rattle.bg_rules.specs.Hosts.{IsHost};

    ghost Value = { HostState };

    ghost view = { λ host. record { big = host.big; next_node = host.next_node; next_edge = host.next_edge } };

    ghost invariant = { λ host. IsHost (record { big = host.big; next_node = host.next_node; next_edge = host.next_edge }) };
}

impl Host {
    /// The host in which nothing was made yet: its counters are one past the largest numbers of the bigraph, 0 where
    /// there is none. Takes no memory and constant time.
    pub fn new(big: Big) -> Host
        requires fits { IsHostBig big }
        requires small { IsWithinLimits (fresh_host big) }
        ensures { result ≡ fresh_host big }
    {
        let next_node = past_last_node(&big.nodes);
        let next_edge = past_last_edge(&big.edges);
        Host {
            big,
            next_node,
            next_edge,
        }
    }

    /// The host with this bigraph and these counters. Takes no memory.
    pub fn with_counters(big: Big, next_node: u32, next_edge: u32) -> Host
        requires { IsHost (record { big = big; next_node = next_node; next_edge = next_edge }) }
        ensures { result ≡ record { big = big; next_node = next_node; next_edge = next_edge } }
    {
        Host {
            big,
            next_node,
            next_edge,
        }
    }

    /// The bigraph.
    pub fn big(&self) -> &Big
        ensures same { result.now ≡ self.now.big }
        ensures kept { IsHost self.now }
    {
        &self.big
    }

    /// The number that the next new node will get.
    pub fn next_node(&self) -> u32
        ensures same { result ≡ self.now.next_node }
        ensures small { result ≤ largest_counter }
    {
        self.next_node
    }

    /// The number that the next new edge will get.
    pub fn next_edge(&self) -> u32
        ensures same { result ≡ self.now.next_edge }
        ensures small { result ≤ largest_counter }
    {
        self.next_edge
    }
}

impl Duplicate for Host {
    fn copy(&self, alloc: Global) -> Mem<Host> {
        Ok(Host {
            big: self.big.copy(alloc)?,
            next_node: self.next_node,
            next_edge: self.next_edge,
        })
    }
}

/// One past the number of the last of these nodes, which ascend.
fn past_last_node(rows: &[NodeRow]) -> u32
    requires ascending { IsStrictlySortedBy node_cmp rows.now }
    requires small { past_largest (node_numbers rows.now) ≤ largest_counter }
    ensures { result ≡ past_largest (node_numbers rows.now) }
{
    match rows.last() {
        Some(row) => row.id + 1,
        None => 0,
    }
}

/// One past the last of these edges, which ascend.
fn past_last_edge(edges: &[u32]) -> u32
    requires ascending { IsStrictlySortedBy nat_cmp edges.now }
    requires small { past_largest edges.now ≤ largest_counter }
    ensures { result ≡ past_largest edges.now }
{
    match edges.last() {
        Some(edge) => *edge + 1,
        None => 0,
    }
}
