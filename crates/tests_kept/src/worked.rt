//! Lists that are worked out by hand.
ghost use Rattle.bg_incr.specs.Matches.{AreMatchesOf};

use crate::following::{are_fresh, list_of, react_at};
use crate::models::{Model, rule_of, system_of};
use bg_base::Map;
use bg_incr::KeptMatches;
use bg_index::IndexedHost;
use bg_lists::Mem;
use bg_rules::{ReactFault, Rule, System};
use std::alloc::Global;

/// A model, the reaction by a rule at nodes, and the lists of the two redexes before and after; each has one map at most.
struct Case {
    model: Model,
    rule: usize,
    map: &'static [u32],
    before: [&'static [u32]; 2],
    after: [&'static [u32]; 2],
}

const CASES: [Case; 2] = [
    // The third node goes, and the two others have all points of the link.
    Case {
        model: Model::Cutting,
        rule: 0,
        map: &[2],
        before: [&[2], &[]],
        after: [&[], &[0, 1]],
    },
    // What lay below the first node lies in another; no image of the second redex is touched.
    Case {
        model: Model::Swapping,
        rule: 0,
        map: &[2, 6],
        before: [&[2, 6], &[]],
        after: [&[7, 8], &[0, 4]],
    },
];

/// Whether the list has this map alone, or none where it is empty.
fn has(list: Option<&[Map]>, map: &[u32]) -> bool {
    match list {
        Some([]) => map.is_empty(),
        Some([one]) => one.as_slice() == map,
        _ => false,
    }
}

/// Whether the lists of the first two redexes have these maps, and are fresh ones.
fn have(
    alloc: Global,
    system: &System,
    host: &IndexedHost,
    kept: &KeptMatches,
    maps: [&[u32]; 2],
) -> Mem<bool>
    requires kept { AreMatchesOf host.now system.now.rules kept.now }
{
    let first = has(list_of(system, host, kept, 0), maps[0]);
    let second = has(list_of(system, host, kept, 1), maps[1]);
    Ok(first && second && are_fresh(alloc, system, host, kept)?)
}

fn is_worked(alloc: Global, system: &System, rule: &Rule, case: &Case) -> Result<bool, ReactFault> {
    let mut host = IndexedHost::of(alloc, system.init())?;
    let mut kept = KeptMatches::start(alloc, &host, system)?;
    let before = have(alloc, system, &host, &kept, case.before)?;
    let reacts = react_at(alloc, system, &mut host, &mut kept, rule, case.map)?;
    let after = have(alloc, system, &host, &kept, case.after)?;
    Ok(before && reacts && after)
}

fn is_worked_in(alloc: Global, case: &Case) -> Result<bool, ReactFault> {
    let system = system_of(alloc, case.model)?;
    let rule = rule_of(&system, case.rule)?;
    is_worked(alloc, &system, rule, case)
}

#[test]
fn a_link_is_closed_when_a_point_goes(rt: HostRuntime) -> Result<(), ReactFault> {
    assert!(rt; is_worked_in(rt.alloc(), &CASES[0])?);
    Ok(())
}

#[test]
fn what_moves_makes_room_for_a_pattern(rt: HostRuntime) -> Result<(), ReactFault> {
    assert!(rt; is_worked_in(rt.alloc(), &CASES[1])?);
    Ok(())
}
