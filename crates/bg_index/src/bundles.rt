//! The points that the links of a host are to have after a reaction.
ghost use Rattle.std.specs.Prelude.{◌≡◌, ◌⊎◌, ◌+◌, ◌<◌, ◌^◌, ◌++◌, ℕ, List, IfOk, OnOk, IsTrue, filter, map};
ghost use Rattle.std.specs.List.Sorted.{IsStrictlySortedBy, IsNonDecreasingBy};
ghost use Rattle.std.specs.Ordering.{nat_cmp};
ghost use Rattle.bg_lists.specs.Lists.{Mem as Member};
ghost use Rattle.bg_base.specs.declared.big.NodeRow.{NodeRow as NodeRowValue};
ghost use Rattle.bg_index.specs.declared.plans.Bundle.{Bundle as BundleValue};
ghost use Rattle.bg_index.specs.declared.plans.LinkKey.{LinkKey as Key};
ghost use Rattle.bg_index.specs.declared.reading.Reading.{Reading as ReadingValue};
ghost use Rattle.bg_index.specs.Arrivals as defined;
ghost use Rattle.bg_index.specs.Arrivals.{AreArrivals};
ghost use Rattle.bg_index.specs.Plans.{IsRead, AreNewRows, AreBundles, key_cmp};
ghost use Rattle.bg_index.specs.Readings.{boundary_of};
ghost use Rattle.bg_place.specs.Places.{places_of, has_node};
ghost use Rattle.bg_rewriting.specs.Making.{AreDropped};
ghost use Rattle.bg_rules.specs.Rules.{RuleParts};

use crate::IndexedHost;
use crate::keys::rank;
use crate::plans::{Bundle, LinkKey};
use crate::point_arrivals::{Arrival, push_arriving};
use crate::sets::is_none_of;
use crate::tied_points::TiedPoints;
use bg_base::Link;
use bg_lists::{Mem, OutOfMemory};
use std::alloc::Global;

/// The links of the host that a node which is gone or a new one is tied to, without those that become idle, each once, with the
/// points of the new rows on it, which are the arrivals. Costs time n log n, and memory n, in the number of ports of these
/// nodes, with a search of each among the nodes and links of the host.
pub fn bundles_of(
    alloc: Global,
    host: &IndexedHost,
    gone: &[u32],
    idle: &[u32],
    arrivals: &[Arrival],
) -> Mem<Vec<Bundle>>
    requires gone_there { (node : ℕ) → Member node gone.now → IsTrue (has_node (places_of host.now.big) node) }
    requires idle_ascends { IsStrictlySortedBy nat_cmp idle.now }
    requires rise { IsNonDecreasingBy defined.arrival_rank arrivals.now }
    ensures { IfOk result (λ bundles. (rule : RuleParts) (nodes : List ℕ) (reading : ReadingValue) (new : List NodeRowValue)
        → IsRead host.now rule nodes reading → AreDropped host.now.big rule nodes gone.now
        → AreArrivals host.now.big.outer new arrivals.now → AreNewRows host.now rule nodes (boundary_of reading) new
        → AreBundles host.now rule nodes gone.now idle.now new bundles.items) }
{
    let lost = lost_keys(alloc, host, gone, idle)?;
    let keys = keys_of(lost, arrivals, host.next_edge())?;
    let bundles = bundles_at(alloc, host, arrivals, &keys)?;
    Ok(bundles)
}

/// The keys of the links of these nodes, which are there, without those of the edges that become idle.
fn lost_keys(alloc: Global, host: &IndexedHost, gone: &[u32], idle: &[u32]) -> Mem<Vec<LinkKey>>
    requires there { (node : ℕ) → Member node gone.now → IsTrue (has_node (places_of host.now.big) node) }
    requires idle_ascends { IsStrictlySortedBy nat_cmp idle.now }
    ensures { IfOk result (λ keys. keys.items ≡ filter (defined.is_kept idle.now) (defined.keys_lost host.now.big gone.now)) }
{
    let mut keys = keys_on(alloc, host, gone)?;
    keys.retain(|key| is_kept(idle, *key));
    Ok(keys)
}

/// The keys of the links of these nodes, which are there.
fn keys_on(alloc: Global, host: &IndexedHost, nodes: &[u32]) -> Mem<Vec<LinkKey>>
    requires there { (node : ℕ) → Member node nodes.now → IsTrue (has_node (places_of host.now.big) node) }
    ensures { IfOk result (λ keys. keys.items ≡ defined.keys_lost host.now.big nodes.now) }
{
    let mut keys = Vec::new(alloc);
    for node in nodes {
        push_keys(host, host.row(*node).links.as_slice(), &mut keys)?;
    }
    Ok(keys)
}

/// Puts the keys of the links behind the others.
fn push_keys(host: &IndexedHost, links: &[Link], keys: &mut Vec<LinkKey>) -> Mem<()>
    ensures { OnOk result (keys.new.items ≡ keys.old.items ++ map (defined.key_of host.now.big.outer) links.now) }
{
    for link in links {
        keys.push(host.key(link))?;
    }
    Ok(())
}

/// Whether the key is that of none of these edges, which ascend.
fn is_kept(idle: &[u32], key: LinkKey) -> bool
    requires idle_ascends { IsStrictlySortedBy nat_cmp idle.now }
    ensures { result ≡ defined.is_kept idle.now key }
{
    match key {
        LinkKey::Edge(edge) => is_none_of(idle, edge),
        LinkKey::Name(_) => true,
    }
}

/// These keys, and those of arrivals that are keys of a host whose edges are below that number, in order, each once.
fn keys_of(lost: Vec<LinkKey>, arrivals: &[Arrival], next: u32) -> Mem<Vec<LinkKey>>
    ensures ascending { IfOk result (λ keys. IsStrictlySortedBy key_cmp keys.items) }
    ensures lost { IfOk result (λ keys. (key : Key) → Member key lost.items → Member key keys.items) }
    ensures got { IfOk result (λ keys. (key : Key) → Member key (map defined.arrival_key arrivals.now) → IsTrue (defined.is_old next key)
        → Member key keys.items) }
    ensures only { IfOk result (λ keys. (key : Key) → Member key keys.items
        → Member key lost.items ⊎ Member key (map defined.arrival_key arrivals.now)) }
{
    let mut keys = lost;
    push_old(arrivals, next, &mut keys)?;
    let keys = key_set(keys);
    Ok(keys)
}

/// Puts the keys of arrivals behind the others, without those of edges from that number on.
fn push_old(arrivals: &[Arrival], next: u32, keys: &mut Vec<LinkKey>) -> Mem<()>
    ensures { OnOk result (keys.new.items ≡ keys.old.items ++ filter (defined.is_old next) (map defined.arrival_key arrivals.now)) }
{
    for arrival in arrivals {
        if is_old(next, arrival.key) {
            keys.push(arrival.key)?;
        }
    }
    Ok(())
}

/// Whether the key is that of an outer name, or of an edge below that number.
fn is_old(next: u32, key: LinkKey) -> bool
    ensures { result ≡ defined.is_old next key }
{
    match key {
        LinkKey::Edge(edge) => edge < next,
        LinkKey::Name(_) => true,
    }
}

/// The keys in order, each once. Takes no memory; costs time n log n.
fn key_set(mut keys: Vec<LinkKey>) -> Vec<LinkKey>
    ensures ascending { IsStrictlySortedBy key_cmp result.items }
    ensures into { (key : Key) → Member key keys.items → Member key result.items }
    ensures back { (key : Key) → Member key result.items → Member key keys.items }
{
    keys.sort_unstable_by_key(|key| rank(*key));
    keys.dedup();
    keys
}

/// The links with these keys, each with the points that arrive at it.
fn bundles_at(
    alloc: Global,
    host: &IndexedHost,
    arrivals: &[Arrival],
    keys: &[LinkKey],
) -> Mem<Vec<Bundle>>
    requires rise { IsNonDecreasingBy defined.arrival_rank arrivals.now }
    ensures keys { IfOk result (λ bundles. map (λ (bundle : BundleValue). bundle.key) bundles.items ≡ keys.now) }
    ensures are { IfOk result (λ bundles. defined.AreBundlesAt host.now arrivals.now bundles.items) }
{
    let mut bundles = Vec::new(alloc);
    for key in keys {
        let bundle = bundle_at(alloc, host, arrivals, *key)?;
        bundles.push(bundle)?;
    }
    Ok(bundles)
}

/// The link with the key, with the points that arrive at it, where 32 bits can count all that it has then.
fn bundle_at(alloc: Global, host: &IndexedHost, arrivals: &[Arrival], key: LinkKey) -> Mem<Bundle>
    requires rise { IsNonDecreasingBy defined.arrival_rank arrivals.now }
    ensures { IfOk result (λ bundle. defined.IsBundleAt host.now arrivals.now key bundle) }
{
    let mut points = Vec::new(alloc);
    push_arriving(alloc, arrivals, key, &mut points)?;
    if !are_few(host.points_at(key).len(), points.len()) {
        return Err(OutOfMemory);
    }
    let arriving = TiedPoints::of(alloc, points)?;
    Ok(Bundle { key, arriving })
}

/// Whether 32 bits can count so many and so many more.
fn are_few(count: usize, more: usize) -> bool
    ensures { IsTrue result → count + more < 2 ^ 32 }
{
    count.saturating_add(more) <= u32::MAX as usize
}
