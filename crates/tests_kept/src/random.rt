//! Reactions whose rules and places are drawn at random.
ghost use Rattle.std.specs.Prelude.{OnOk};
ghost use Rattle.bg_incr.specs.Matches.{AreMatchesOf};

use crate::following::{are_fresh, list_of, react_at};
use crate::models::{Model, rule_of, system_of};
use crate::searches::are_found_alike;
use bg_base::Map;
use bg_incr::KeptMatches;
use bg_index::IndexedHost;
use bg_lists::{Duplicate, Mem};
use bg_rules::{ReactFault, System};
use rand_core::SeedableRng;
use rand_core::utils::NextWord;
use rand_pcg::Pcg32;
use std::alloc::Global;
use std::thread::Threads;

/// The number of the rule that is drawn by a word; the first where the host is large.
fn number_at(host: &IndexedHost, system: &System, word: u32) -> u32 {
    let rules = system.rules().len() as u32;
    if rules == 0 || host.node_count() > 40 {
        0
    } else {
        word % rules
    }
}

/// The occurrence of the redex of that rule that is drawn by a word, where there is one.
fn map_at(
    alloc: Global,
    system: &System,
    host: &IndexedHost,
    kept: &KeptMatches,
    rule: u32,
    word: u32,
) -> Mem<Option<Map>>
    requires kept { AreMatchesOf host.now system.now.rules kept.now }
{
    match list_of(system, host, kept, rule) {
        Some([]) | None => Ok(None),
        Some(list) => Ok(Some(list[word as usize % list.len()].copy(alloc)?)),
    }
}

/// A turn: whether there is a reaction, and the lists are fresh ones after it; nothing where there is no reaction.
fn turn(
    alloc: Global,
    system: &System,
    host: &mut IndexedHost,
    kept: &mut KeptMatches,
    word: u32,
    place: u32,
) -> Result<Option<bool>, ReactFault>
    requires kept { AreMatchesOf host.old system.now.rules kept.old }
    ensures { OnOk result (AreMatchesOf host.new system.now.rules kept.new) }
{
    let number = number_at(host, system, word);
    let Some(map) = map_at(alloc, system, host, kept, number, place)? else {
        return Ok(None);
    };
    let rule = rule_of(system, number as usize)?;
    if react_at(alloc, system, host, kept, rule, &map)? {
        return Ok(Some(are_fresh(alloc, system, host, kept)?));
    }
    Ok(Some(false))
}

/// How many of so many turns are reactions; 0 where a list is not a fresh one, or a search finds another.
fn turns<R: Threads + Sync>(
    rt: &R,
    alloc: Global,
    system: &System,
    most: usize,
) -> Result<usize, ReactFault> {
    let mut host = IndexedHost::of(alloc, system.init())?;
    let mut kept = KeptMatches::start(alloc, &host, system)?;
    let mut generator = Pcg32::seed_from_u64(2);
    let mut count = 0_usize;
    for _turn in 0..most {
        let word = generator.next_word();
        let place = generator.next_word();
        match turn(alloc, system, &mut host, &mut kept, word, place)? {
            Some(fresh) => {
                if !fresh || !are_found_alike(rt, alloc, system, &host)? {
                    return Ok(0);
                }
                count = count.saturating_add(1);
            }
            None => {}
        }
    }
    Ok(count)
}

#[test]
fn agents_in_rooms_are_kept(rt: HostRuntime) -> Result<(), ReactFault> {
    let system = system_of(rt.alloc(), Model::Rooms)?;
    let count = turns(&rt, rt.alloc(), &system, 600)?;
    assert!(rt; count > 400, "{count}");
    Ok(())
}

#[test]
fn cells_are_kept(rt: HostRuntime) -> Result<(), ReactFault> {
    let system = system_of(rt.alloc(), Model::Cells)?;
    let count = turns(&rt, rt.alloc(), &system, 600)?;
    assert!(rt; count > 100, "{count}");
    Ok(())
}
