//! How many nodes the hosts of a run have.
ghost use Rattle.std.specs.Prelude.{◌≡◌, ◌+◌, ⊤, Some, IfOk, IsTrue, MatchOption, OnOk, length, slice_get};
ghost use Rattle.bg_base.specs.Elementary.{counted};
ghost use Rattle.bg_cond.specs.Steps.{IsLegal, IsRun, IsTooLarge, LeadsTo, step_of};
ghost use Rattle.bg_rules.specs.Reaction.{HostState};
ghost use Rattle.bg_rules.specs.Rules.{RuleParts as RuleValue};
ghost use Rattle.command_run.specs.Counts.{AreNodeCounts};

use bg_base::{Entry, Step};
use bg_cond::take_step_in_place;
use bg_index::IndexedHost;
use bg_lists::{Duplicate, Mem, OutOfMemory};
use bg_rules::{ReactFault, Rule, System};
use std::alloc::Global;

/// The number of nodes of the host after each entry of a run of the system. Where each rule of the entries asks for each part
/// of its parameter once, in order, it costs an addition for each entry; else an index of the first host, and a reaction in place
/// for each entry.
pub(crate) fn counts_of(alloc: Global, system: &System, entries: &[Entry]) -> Mem<Vec<u32>>
    requires { (last : HostState) × IsRun system.now.rules system.now.init entries.now last }
    ensures { IfOk result (λ counts. AreNodeCounts system.now.rules system.now.init entries.now counts.items) }
{
    match counts_by_rules(alloc, system, entries)? {
        Some(counts) => Ok(counts),
        None => counts_by_hosts(alloc, system, entries),
    }
}

/// The number of nodes of the host after each entry, as its rule changes it; `None` where one of these rules does not ask for each
/// part of its parameter once, in order.
fn counts_by_rules(alloc: Global, system: &System, entries: &[Entry]) -> Mem<Option<Vec<u32>>>
    requires { (last : HostState) × IsRun system.now.rules system.now.init entries.now last }
    ensures { IfOk result (λ made. MatchOption made ⊤ (λ counts. AreNodeCounts system.now.rules system.now.init entries.now counts.items)) }
{
    let rules = system.rules();
    let mut counts = Vec::new(alloc);
    let mut count = system.init().big().nodes.len();
    for entry in entries {
        let Some(after) = count_after(rules, entry.rule, count) else {
            return Ok(None);
        };
        counts.push(after)?;
        count = after;
    }
    Ok(Some(counts))
}

/// The number of nodes behind a reaction of a host with so many by the rule of that number; `None` where that does not ask for
/// each part of its parameter once, in order, or where there is none.
fn count_after(rules: &[Rule], number: u32, count: u32) -> Option<u32>
    ensures { MatchOption result ⊤ (λ after. (rule : RuleValue) × (slice_get rules.now number ≡ Some rule) × (rule.map ≡ counted 0 (length rule.redex.sites)) × (after + length rule.redex.nodes ≡ count + length rule.reactum.nodes)) }
{
    let rule = rules.get(number as usize)?;
    if !keeps_parameter(rule) {
        return None;
    }
    let gone = rule.redex().big().nodes.len();
    let come = rule.reactum().nodes.len();
    count.checked_add(come)?.checked_sub(gone)
}

/// Whether the rule asks for each part of its parameter once, in order.
fn keeps_parameter(rule: &Rule) -> bool
    ensures { IsTrue result → rule.now.map ≡ counted 0 (length rule.now.redex.sites) }
{
    let map = rule.map();
    map.len() == rule.redex().big().sites.len() && is_in_order(map.as_slice())
}

/// Whether the numbers are 0, 1, 2 and so on.
fn is_in_order(numbers: &[u32]) -> bool
    ensures { IsTrue result → numbers.now ≡ counted 0 (length numbers.now) }
{
    for (at, number) in numbers.iter().enumerate() {
        if *number as usize != at {
            return false;
        }
    }
    true
}

/// The number of nodes of the host after each entry, of which each is made again.
fn counts_by_hosts(alloc: Global, system: &System, entries: &[Entry]) -> Mem<Vec<u32>>
    requires { (last : HostState) × IsRun system.now.rules system.now.init entries.now last }
    ensures { IfOk result (λ counts. AreNodeCounts system.now.rules system.now.init entries.now counts.items) }
{
    let mut host = IndexedHost::of(alloc, system.init())?;
    let mut counts = Vec::new(alloc);
    for entry in entries {
        make_step(alloc, &mut host, system, entry)?;
        counts.push(host.node_count())?;
    }
    Ok(counts)
}

/// The host becomes that after the entry.
fn make_step(alloc: Global, host: &mut IndexedHost, system: &System, entry: &Entry) -> Mem<()>
    requires legal { IsLegal host.old system.now.rules (step_of entry.now) }
    requires within { ¬ IsTooLarge host.old system.now.rules (step_of entry.now) }
    ensures { OnOk result (LeadsTo host.old system.now.rules (step_of entry.now) host.new) }
{
    let step = Step {
        rule: entry.rule,
        map: entry.map.copy(alloc)?,
    };
    match take_step_in_place(alloc, host, system, &step) {
        Ok(_causes) => Ok(()),
        Err(ReactFault::OutOfMemory) => Err(OutOfMemory),
        Err(ReactFault::Full) => unreachable!("the step passes no limit"),
    }
}
