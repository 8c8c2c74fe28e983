//! Lists of more occurrences than are listed, and back.
ghost use Rattle.std.specs.Prelude.{OnOk};
ghost use Rattle.bg_incr.specs.Matches.{AreMatchesOf};

use crate::following::{are_fresh, list_of, react_at};
use crate::models::{Model, rule_of, system_of};
use bg_incr::KeptMatches;
use bg_index::IndexedHost;
use bg_lists::Mem;
use bg_rules::{ReactFault, Rule, System};
use std::alloc::Global;

/// How many occurrences of the first redex are listed; 0 where there is no list, or one that is not a fresh one.
fn listed(alloc: Global, system: &System, host: &IndexedHost, kept: &KeptMatches) -> Mem<usize>
    requires kept { AreMatchesOf host.now system.now.rules kept.now }
{
    if !are_fresh(alloc, system, host, kept)? {
        return Ok(0);
    }
    match list_of(system, host, kept, 0) {
        Some(list) => Ok(list.len()),
        None => Ok(0),
    }
}

/// How many are listed after the reaction by the rule at the nodes, which is one.
fn listed_then(
    alloc: Global,
    system: &System,
    host: &mut IndexedHost,
    kept: &mut KeptMatches,
    rule: usize,
    map: &[u32],
) -> Result<Option<usize>, ReactFault>
    requires kept { AreMatchesOf host.old system.now.rules kept.old }
    ensures { OnOk result (AreMatchesOf host.new system.now.rules kept.new) }
{
    let rule = rule_of(system, rule)?;
    if react_at(alloc, system, host, kept, rule, map)? {
        return Ok(Some(listed(alloc, system, host, kept)?));
    }
    Ok(None)
}

/// Whether a pair comes, goes, and comes, and so many are listed before and after each.
fn comes_and_goes(
    alloc: Global,
    system: &System,
    host: &mut IndexedHost,
    kept: &mut KeptMatches,
) -> Result<bool, ReactFault>
    requires kept { AreMatchesOf host.old system.now.rules kept.old }
{
    let before = listed(alloc, system, host, kept)?;
    let first = listed_then(alloc, system, host, kept, 1, &[0, 2])?;
    let second = listed_then(alloc, system, host, kept, 2, &[515, 516])?;
    let third = listed_then(alloc, system, host, kept, 1, &[517, 518])?;
    Ok(before == 65_536 && first == Some(0) && second == Some(65_536) && third == Some(0))
}

fn comes_and_goes_in(alloc: Global, system: &System) -> Result<bool, ReactFault> {
    let mut host = IndexedHost::of(alloc, system.init())?;
    let mut kept = KeptMatches::start(alloc, &host, system)?;
    comes_and_goes(alloc, system, &mut host, &mut kept)
}

/// 65,536 are listed, and 65,537 are not.
#[test]
fn one_too_many_comes_and_goes(rt: HostRuntime) -> Result<(), ReactFault> {
    let system = system_of(rt.alloc(), Model::Pairs)?;
    assert!(rt; comes_and_goes_in(rt.alloc(), &system)?);
    Ok(())
}

/// Drops the nodes from the 640th up to that one.
fn dropped(
    alloc: Global,
    system: &System,
    host: &mut IndexedHost,
    kept: &mut KeptMatches,
    rule: &Rule,
    end: u32,
) -> Result<(), ReactFault>
    requires kept { AreMatchesOf host.old system.now.rules kept.old }
    ensures { OnOk result (AreMatchesOf host.new system.now.rules kept.new) }
{
    for node in 640..end {
        react_at(alloc, system, host, kept, rule, &[node])?;
    }
    Ok(())
}

/// How many of 131,584 occurrences are listed after the nodes up to that one, with 512 each, have gone.
fn listed_after(alloc: Global, system: &System, end: u32) -> Result<usize, ReactFault> {
    let rule = rule_of(system, 1)?;
    let mut host = IndexedHost::of(alloc, system.init())?;
    let mut kept = KeptMatches::start(alloc, &host, system)?;
    dropped(alloc, system, &mut host, &mut kept, rule, end)?;
    Ok(listed(alloc, system, &host, &kept)?)
}

/// Of 257 times 512 occurrences not all are kept; after 128 of the 257 have gone there is no list yet, after 129 there is.
#[test]
fn a_list_comes_back(rt: HostRuntime) -> Result<(), ReactFault> {
    let system = system_of(rt.alloc(), Model::Many)?;
    let before = listed_after(rt.alloc(), &system, 768)?;
    let after = listed_after(rt.alloc(), &system, 769)?;
    assert!(rt; before == 0 && after == 65_536, "{before} {after}");
    Ok(())
}
