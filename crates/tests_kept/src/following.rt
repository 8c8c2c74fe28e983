//! A host that reacts, and the occurrences that are kept of it.
ghost use Rattle.std.specs.Prelude.{IfOk, IsTrue, OnOk};
ghost use Rattle.bg_incr.specs.Matches.{AreMatchesOf};
ghost use Rattle.bg_rules.specs.Decomposition.{Occurs};

use bg_base::Map;
use bg_incr::KeptMatches;
use bg_index::IndexedHost;
use bg_lists::Mem;
use bg_match::{NumberedHost, embeds, list};
use bg_rules::{Host, ListFault, Pattern, ReactFault, Rule, System};
use std::alloc::Global;

fn occurs(alloc: Global, indexed: &IndexedHost, rule: &Rule, map: &[u32]) -> Mem<bool>
    ensures { IfOk result (λ holds. IsTrue holds → Occurs indexed.now.big rule.now.redex map.now) }
{
    let host = indexed.to_host(alloc)?;
    let holds = embeds(host.big(), rule.redex(), map);
    Ok(holds)
}

/// The reaction by the rule at the nodes, with what is kept brought to the host after; whether the redex occurs there.
pub(crate) fn react_at(
    alloc: Global,
    system: &System,
    host: &mut IndexedHost,
    kept: &mut KeptMatches,
    rule: &Rule,
    map: &[u32],
) -> Result<bool, ReactFault>
    requires kept { AreMatchesOf host.old system.now.rules kept.old }
    ensures { OnOk result (AreMatchesOf host.new system.now.rules kept.new) }
{
    host.keeps();
    let _redex = rule.redex();
    if occurs(alloc, host, rule, map)? {
        let touched = host.react_in_place(alloc, rule, map)?;
        kept.after(alloc, host, system, &touched)?;
        return Ok(true);
    }
    Ok(false)
}

/// The list of the redex of that rule, where there is one.
pub(crate) fn list_of<'a>(
    system: &System,
    host: &IndexedHost,
    kept: &'a KeptMatches,
    rule: u32,
) -> Option<&'a [Map]>
    requires kept { AreMatchesOf host.now system.now.rules kept.now }
{
    if (rule as usize) < system.rules().len() {
        kept.list(rule)
    } else {
        None
    }
}

/// Whether the list of each rule's redex is a fresh one.
pub(crate) fn are_fresh(
    alloc: Global,
    system: &System,
    host: &IndexedHost,
    kept: &KeptMatches,
) -> Mem<bool>
    requires kept { AreMatchesOf host.now system.now.rules kept.now }
{
    let plain = host.to_host(alloc)?;
    for (number, rule) in system.rules().iter().enumerate() {
        if !is_fresh(alloc, &plain, rule.redex(), kept.list(number as u32))? {
            return Ok(false);
        }
    }
    Ok(true)
}

/// Whether the list is that of all occurrences, and there is none where they are more than 65,536.
fn is_fresh(alloc: Global, host: &Host, pattern: &Pattern, kept: Option<&[Map]>) -> Mem<bool> {
    match list(alloc, host.big(), pattern, 65_536) {
        Ok(maps) => Ok(is_list(kept, &maps)),
        Err(ListFault::TooMany) => Ok(kept.is_none()),
        Err(ListFault::OutOfMemory) => Err(bg_lists::OutOfMemory),
    }
}

fn is_list(kept: Option<&[Map]>, maps: &[Map]) -> bool {
    match kept {
        Some(list) => list == maps,
        None => false,
    }
}
