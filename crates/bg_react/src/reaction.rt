//! Reactions: the redex of a rule replaced by its reactum.
ghost use Rattle.std.specs.Prelude.{◌≡◌, ◌≤◌, ◌<◌, ◌+◌, ◌^◌, length, Ok, Err, OnOk, OnErr, IfOk, IsErrOf, MatchOption, MatchResult};
ghost use Rattle.bg_base.specs.Limits.{most_host_nodes, most_host_edges, largest_counter};
ghost use Rattle.bg_base.specs.Bigraph.{IsValid};
ghost use Rattle.bg_base.specs.Elementary.{counted};
ghost use Rattle.bg_base.specs.Products as product;
ghost use Rattle.bg_decompose.specs.Joining.{recomposed_from};
ghost use Rattle.bg_rules.specs.Decomposition.{Occurs};
ghost use Rattle.bg_rules.specs.Hosts.{IsHost};
ghost use Rattle.bg_rules.specs.Instantiation.{next_after};
ghost use Rattle.bg_rules.specs.Limits.{AreSmallCounters, IsWithinLimits, PassesALimit};
ghost use Rattle.bg_rules.specs.Reaction as defined;
ghost use Rattle.bg_rules.specs.Reaction.{Reacts};
ghost use Rattle.bg_rules.specs.Rules.{IsRule};
ghost use Rattle.bg_react.specs.Growth as growth;
ghost use Rattle.bg_react.specs.Growth.{GoesBetween, HasRoom, LiesBetween};

use crate::count::count_copies;
use crate::instance::{Instance, instance_of};
use crate::parts::Parts;
use bg_algebra::lean;
use bg_base::Big;
use bg_base::limits::{LARGEST_COUNTER, MOST_HOST_EDGES, MOST_HOST_NODES};
use bg_decompose::{Decomposition, recompose, split};
use bg_lists::{Mem, Rows};
use bg_rules::{Host, ReactFault, Rule};
use std::alloc::Global;

/// The reaction of the host by the rule, whose redex occurs at the nodes of the map (Milner, chapter 8). The host is
/// its context with the redex and a parameter in it; it becomes the context with the reactum, its nodes and edges
/// numbered from the host's counters on, and in that an instance of the parameter. Edges that become idle are dropped;
/// outer names of the host stay. The conditions of the rule are not looked at.
///
/// It refuses with `Full` where the host would pass one of its limits: more than 65,536 nodes or edges, or a counter
/// above 2,147,483,648. Nodes and counters are counted before anything of the result is made. At a refusal the host
/// stays as it was. Costs the time of `split`, and n log n in the size of the host, the rule and the result; memory in
/// proportion to these.
pub fn react(alloc: Global, host: &mut Host, rule: &Rule, map: &[u32]) -> Result<(), ReactFault>
    requires occurs { Occurs host.old.big rule.now.redex map.now }
    ensures reacts { OnOk result (Reacts host.old rule.now map.now host.new) }
    ensures within { OnOk result (IsWithinLimits host.new) }
    ensures full { IsErrOf result ReactFault.Full → PassesALimit host.old rule.now map.now }
    ensures kept { OnErr result (host.new ≡ host.old) }
{
    let after = reacted(alloc, host, rule, map)?;
    *host = after;
    Ok(())
}

/// What the host becomes.
fn reacted(alloc: Global, host: &Host, rule: &Rule, map: &[u32]) -> Result<Host, ReactFault>
    requires occurs { Occurs host.now.big rule.now.redex map.now }
    ensures reacts { IfOk result (Reacts host.now rule.now map.now) }
    ensures within { IfOk result IsWithinLimits }
    ensures full { IsErrOf result ReactFault.Full → PassesALimit host.now rule.now map.now }
{
    let parts = split(alloc, host.big(), rule.redex(), map)?;
    let after = put_together(alloc, host, rule, parts)?;
    Ok(after)
}

/// What the host of these parts becomes.
fn put_together(
    alloc: Global,
    host: &Host,
    rule: &Rule,
    parts: Decomposition,
) -> Result<Host, ReactFault>
    requires is_host { IsHost host.now }
    requires is_rule { IsRule rule.now }
    requires between { LiesBetween host.now.big rule.now.redex parts.context parts.parameter }
    ensures value { IfOk result (λ after. after ≡ defined.host_after host.now rule.now parts.context parts.parameter) }
    ensures within { IfOk result IsWithinLimits }
    ensures full { IsErrOf result ReactFault.Full → IsWithinLimits (defined.host_after host.now rule.now parts.context parts.parameter) → ⊥ }
{
    let Decomposition {
        context,
        parameter,
        ..
    } = parts;
    let by_region = Parts::of(alloc, &parameter)?;
    let after = host_after(alloc, host, rule, &context, &by_region)?;
    Ok(after)
}

/// What the host of this context and this parameter becomes.
fn host_after(
    alloc: Global,
    host: &Host,
    rule: &Rule,
    context: &Big,
    parameter: &Parts<'_>,
) -> Result<Host, ReactFault>
    requires is_host { IsHost host.now }
    requires is_rule { IsRule rule.now }
    requires between { LiesBetween host.now.big rule.now.redex context.now parameter.now }
    ensures value { IfOk result (λ after. after ≡ defined.host_after host.now rule.now context.now parameter.now) }
    ensures within { IfOk result IsWithinLimits }
    ensures full { IsErrOf result ReactFault.Full → IsWithinLimits (defined.host_after host.now rule.now context.now parameter.now) → ⊥ }
{
    let found = counters_after(alloc, host, rule, context, parameter)?;
    let counters = within_limits(found)?;
    let big = big_after(alloc, host, rule, context, parameter)?;
    let after = host_of(big, counters)?;
    Ok(after)
}

/// The counters of a host, once a reaction took place.
#[derive(Clone, Copy)]
struct Counters {
    next_node: u32,
    next_edge: u32,
}

/// The counters, or `Full` where there are none. Takes no memory.
fn within_limits(found: Option<Counters>) -> Result<Counters, ReactFault>
    ensures { MatchOption found (result ≡ Err ReactFault.Full) (λ counters. result ≡ Ok counters) }
{
    match found {
        Some(counters) => Ok(counters),
        None => Err(ReactFault::Full),
    }
}

/// The host with these counters, or `Full` where it has too many edges. Takes no memory.
fn host_of(big: Big, counters: Counters) -> Result<Host, ReactFault>
    requires fits { length big.edges ≤ most_host_edges → IsHost (record { big = big; next_node = counters.next_node; next_edge = counters.next_edge }) }
    ensures { MatchResult result
        (λ host. (host ≡ record { big = big; next_node = counters.next_node; next_edge = counters.next_edge })
        × (length big.edges ≤ most_host_edges))
        (λ fault. (fault ≡ ReactFault.Full) × (most_host_edges < length big.edges)) }
{
    if big.edges.len() > MOST_HOST_EDGES {
        return Err(ReactFault::Full);
    }
    Ok(Host::with_counters(big, counters.next_node, counters.next_edge))
}

/// The counters of what the host becomes; none where its nodes or a counter pass their limit.
fn counters_after(
    alloc: Global,
    host: &Host,
    rule: &Rule,
    context: &Big,
    parameter: &Parts<'_>,
) -> Mem<Option<Counters>>
    ensures { IfOk result (λ found. MatchOption found
        (HasRoom host.now rule.now context.now parameter.now → ⊥)
        (λ counters. HasRoom host.now rule.now context.now parameter.now
        × (counters.next_node ≡ next_after parameter.now rule.now.map (growth.after_reactum host.now rule.now))
        × (counters.next_edge ≡ host.now.next_edge + length rule.now.reactum.edges))) }
{
    let Some(most) = room_for_copies(context, rule.reactum()) else {
        return Ok(None);
    };
    let Some(copies) = count_copies(alloc, parameter, rule.map(), most)? else {
        return Ok(None);
    };
    Ok(counters_with(host, rule.reactum(), copies.late))
}

/// How many nodes the copies may have beside those of the context and of the reactum; none where these are too many.
fn room_for_copies(context: &Big, reactum: &Big) -> Option<u32>
    ensures { MatchOption result
        (most_host_nodes < length context.now.nodes + length reactum.now.nodes)
        (λ most. length context.now.nodes + (length reactum.now.nodes + most) ≡ most_host_nodes) }
{
    let room = rest_of(MOST_HOST_NODES, context.nodes.len())?;
    rest_of(room, reactum.nodes.len())
}

/// What is left of the most, none where more was taken.
fn rest_of(most: u32, taken: u32) -> Option<u32>
    ensures { MatchOption result (most < taken) (λ rest. taken + rest ≡ most) }
{
    if taken <= most {
        Some(most - taken)
    } else {
        None
    }
}

/// The host's counters after the reactum's rows and so many nodes of late copies; none where one passes its limit.
fn counters_with(host: &Host, reactum: &Big, late: u32) -> Option<Counters>
    ensures { MatchOption result
        (AreSmallCounters (host.now.next_node + length reactum.now.nodes + late) (host.now.next_edge + length reactum.now.edges) → ⊥)
        (λ counters. AreSmallCounters (host.now.next_node + length reactum.now.nodes + late) (host.now.next_edge + length reactum.now.edges)
        × (counters.next_node ≡ host.now.next_node + length reactum.now.nodes + late)
        × (counters.next_edge ≡ host.now.next_edge + length reactum.now.edges)) }
{
    let after_reactum = counter_after(host.next_node(), reactum.nodes.len())?;
    let next_node = counter_after(after_reactum, late)?;
    let next_edge = counter_after(host.next_edge(), reactum.edges.len())?;
    Some(Counters {
        next_node,
        next_edge,
    })
}

/// The counter after so many new numbers, none where it passes its limit.
fn counter_after(counter: u32, count: u32) -> Option<u32>
    ensures { MatchOption result (largest_counter < counter + count) (λ after. (after ≡ counter + count) × (after ≤ largest_counter)) }
{
    let room = rest_of(LARGEST_COUNTER, counter)?;
    if count <= room {
        Some(counter + count)
    } else {
        None
    }
}

/// The bigraph of what the host becomes: the reactum between the context and an instance of the parameter.
fn big_after(
    alloc: Global,
    host: &Host,
    rule: &Rule,
    context: &Big,
    parameter: &Parts<'_>,
) -> Mem<Big>
    requires is_host { IsHost host.now }
    requires is_rule { IsRule rule.now }
    requires between { LiesBetween host.now.big rule.now.redex context.now parameter.now }
    requires room { HasRoom host.now rule.now context.now parameter.now }
    ensures { IfOk result (λ big. big ≡ defined.recomposed host.now rule.now context.now parameter.now) }
{
    let after_reactum = host.next_node() + rule.reactum().nodes.len();
    let Instance { big: instance, .. } = instance_of(alloc, parameter, rule.map(), after_reactum)?;
    let big = with_reactum(alloc, host, rule.reactum(), context, &instance)?;
    Ok(big)
}

/// The reactum, its rows with the next numbers, between the context and the instance; idle edges are dropped.
fn with_reactum(
    alloc: Global,
    host: &Host,
    reactum: &Big,
    context: &Big,
    instance: &Big,
) -> Mem<Big>
    requires valid { IsValid reactum.now }
    requires between { GoesBetween host.now reactum.now context.now instance.now }
    requires nodes { host.now.next_node + length reactum.now.nodes < 2 ^ 32 }
    requires edges { host.now.next_edge + length reactum.now.edges < 2 ^ 32 }
    ensures { IfOk result (λ big. big ≡ product.lean (recomposed_from reactum.now (counted host.now.next_node (length reactum.now.nodes)) context.now
        (counted host.now.next_edge (length reactum.now.edges)) instance.now)) }
{
    let nodes = numbers_from(alloc, host.next_node(), reactum.nodes.len())?;
    let edges = numbers_from(alloc, host.next_edge(), reactum.edges.len())?;
    let whole = recompose(alloc, context, reactum, &nodes, &edges, instance)?;
    let big = lean(alloc, &whole)?;
    Ok(big)
}

/// So many numbers in a row, from the first on.
#[tactic(auto, using(bg_base::proofs::Counted::counted_more))]
fn numbers_from(alloc: Global, first: u32, count: u32) -> Mem<Rows<u32>>
    requires { first + count < 2 ^ 32 }
    ensures { IfOk result (λ numbers. numbers ≡ counted first count) }
{
    let mut numbers = Vec::new(alloc);
    for step in 0..count {
        numbers.push(first + step)?;
    }
    Rows::try_from_vec(numbers)
}
