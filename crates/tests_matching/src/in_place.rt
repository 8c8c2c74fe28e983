//! Reactions in place: beside reactions of plain hosts, and what they touch beside what the rows before and after say.
ghost use Rattle.std.specs.Prelude.{IfOk, IsTrue};
ghost use Rattle.bg_rules.specs.Decomposition.{Occurs};

mod cases;
mod listing;
mod texts;
mod touching;
mod walks;

use crate::in_place::cases::{CASES, Case, has_causes, touches};
use crate::in_place::listing::{has_children, has_points};
use crate::in_place::texts::{Model, text};
use crate::in_place::touching::is_touched;
use crate::in_place::walks::are_walked;
use crate::indexed::has_rows;
use crate::models::{rule_of, system_of};
use bg_base::{Big, Map, Place};
use bg_index::{Causes, IndexedHost, Touched};
use bg_lists::Mem;
use bg_match::{embeds, list};
use bg_react::react;
use bg_rules::{Host, ListFault, ReactFault, Rule, System};
use rand_core::SeedableRng;
use rand_core::utils::NextWord;
use rand_pcg::Pcg32;
use std::alloc::Global;

fn occurs(alloc: Global, indexed: &IndexedHost, rule: &Rule, map: &[u32]) -> Mem<bool>
    ensures { IfOk result (λ holds. IsTrue holds → Occurs indexed.now.big rule.now.redex map.now) }
{
    let host = indexed.to_host(alloc)?;
    let holds = embeds(host.big(), rule.redex(), map);
    Ok(holds)
}

/// The reaction in place, where the redex occurs there.
fn react_here(
    alloc: Global,
    indexed: &mut IndexedHost,
    rule: &Rule,
    map: &[u32],
) -> Result<Touched, ReactFault> {
    if !occurs(alloc, indexed, rule, map)? {
        return Err(ReactFault::OutOfMemory);
    }
    indexed.react_in_place(alloc, rule, map)
}

/// The reaction in place that tells its causes, where the redex occurs there.
fn react_and_tell(
    alloc: Global,
    indexed: &mut IndexedHost,
    rule: &Rule,
    map: &[u32],
) -> Result<Causes, ReactFault> {
    if !occurs(alloc, indexed, rule, map)? {
        return Err(ReactFault::OutOfMemory);
    }
    indexed.react_telling_causes(alloc, rule, map)
}

/// The reaction of the plain host, where the redex occurs there.
fn react_plainly(
    alloc: Global,
    host: &mut Host,
    rule: &Rule,
    map: &[u32],
) -> Result<(), ReactFault> {
    if !embeds(host.big(), rule.redex(), map) {
        return Err(ReactFault::OutOfMemory);
    }
    react(alloc, host, rule, map)
}

fn is_same(one: &Host, other: &Host) -> bool {
    one.big() == other.big()
        && one.next_node() == other.next_node()
        && one.next_edge() == other.next_edge()
}

/// Whether the indexed host is this one, and its counters are.
fn is_host(alloc: Global, indexed: &IndexedHost, host: &Host) -> Mem<bool> {
    let back = indexed.to_host(alloc)?;
    Ok(
        is_same(&back, host)
            && indexed.next_node() == host.next_node()
            && indexed.next_edge() == host.next_edge(),
    )
}

/// Whether the indexed host is this one, and answers by its rows.
fn is_indexed(alloc: Global, indexed: &IndexedHost, host: &Host) -> Mem<bool> {
    Ok(
        is_host(alloc, indexed, host)?
            && has_rows(indexed, host)
            && has_children(alloc, indexed, host)?
            && has_points(alloc, indexed, host)?,
    )
}

/// The reaction of both: whether they are the same after it, and what is touched is what the rows say.
fn react_both(
    alloc: Global,
    indexed: &mut IndexedHost,
    plain: &mut Host,
    rule: &Rule,
    map: &[u32],
) -> Result<bool, ReactFault> {
    let before = indexed.to_host(alloc)?;
    react_from(alloc, before.big(), indexed, plain, rule, map)
}

fn react_from(
    alloc: Global,
    before: &Big,
    indexed: &mut IndexedHost,
    plain: &mut Host,
    rule: &Rule,
    map: &[u32],
) -> Result<bool, ReactFault> {
    let touched = react_here(alloc, indexed, rule, map)?;
    react_plainly(alloc, plain, rule, map)?;
    let indexes = is_indexed(alloc, indexed, plain)?;
    let touches = is_touched(alloc, before, plain.big(), &touched)?;
    Ok(indexes && touches)
}

/// Whether that is touched which the case says.
fn is_worked_touching(
    alloc: Global,
    host: &Host,
    rule: &Rule,
    case: &Case,
) -> Result<bool, ReactFault> {
    let mut indexed = IndexedHost::of(alloc, host)?;
    let touched = react_here(alloc, &mut indexed, rule, case.map)?;
    Ok(touches(&touched, case))
}

/// Whether the causes are those that the case says, and new nodes are told from old ones.
fn is_worked_telling(
    alloc: Global,
    host: &Host,
    rule: &Rule,
    case: &Case,
) -> Result<bool, ReactFault> {
    let mut indexed = IndexedHost::of(alloc, host)?;
    let causes = react_and_tell(alloc, &mut indexed, rule, case.map)?;
    Ok(has_causes(&causes, case) && causes.next_node == host.next_node())
}

/// Whether both reactions are the same.
fn agrees(
    alloc: Global,
    indexed: &mut IndexedHost,
    rule: &Rule,
    map: &[u32],
) -> Result<bool, ReactFault> {
    let mut plain = indexed.to_host(alloc)?;
    react_both(alloc, indexed, &mut plain, rule, map)
}

fn agrees_at(alloc: Global, host: &Host, rule: &Rule, map: &[u32]) -> Result<bool, ReactFault> {
    let mut indexed = IndexedHost::of(alloc, host)?;
    agrees(alloc, &mut indexed, rule, map)
}

fn is_worked(alloc: Global, system: &System, case: &Case) -> Result<bool, ReactFault> {
    let rule = rule_of(system, case.rule)?;
    let touches = is_worked_touching(alloc, system.init(), rule, case)?;
    let tells = is_worked_telling(alloc, system.init(), rule, case)?;
    let agrees = agrees_at(alloc, system.init(), rule, case.map)?;
    Ok(touches && tells && agrees)
}

fn is_worked_in(alloc: Global, case: &Case) -> Result<bool, ReactFault> {
    let system = system_of(alloc, text(case.model))?;
    is_worked(alloc, &system, case)
}

/// How many cases are as they were worked out, before the first that is not.
fn worked(alloc: Global, cases: &[Case]) -> Result<usize, ReactFault> {
    for (at, case) in cases.iter().enumerate() {
        if !is_worked_in(alloc, case)? {
            return Ok(at);
        }
    }
    Ok(cases.len())
}

#[test]
fn worked_cases(rt: HostRuntime) -> Result<(), ReactFault> {
    let count = worked(rt.alloc(), CASES.as_slice())?;
    assert!(rt; count == 15, "{count}");
    Ok(())
}

fn fault_of(_fault: ListFault) -> ReactFault {
    ReactFault::OutOfMemory
}

/// The occurrences of the rule's redex in the host, which are not many.
fn occurrences(alloc: Global, host: &Host, rule: &Rule) -> Result<Vec<Map>, ReactFault> {
    match list(alloc, host.big(), rule.redex(), 10_000) {
        Ok(maps) => Ok(maps),
        Err(fault) => Err(fault_of(fault)),
    }
}

/// Whether walks over the indexed host go over the occurrences in the plain one, which are these.
fn are_found(
    alloc: Global,
    indexed: &IndexedHost,
    plain: &Host,
    rule: &Rule,
    maps: &[Map],
) -> Result<bool, ReactFault> {
    match are_walked(
        alloc,
        indexed,
        rule.redex(),
        plain.big().nodes.as_slice(),
        maps,
    ) {
        Ok(holds) => Ok(holds),
        Err(fault) => Err(fault_of(fault)),
    }
}

/// The reaction of both at the occurrence that is drawn by a word, among those that walks find: whether it is right;
/// nothing where there is none.
fn react_at_turn(
    alloc: Global,
    indexed: &mut IndexedHost,
    plain: &mut Host,
    rule: &Rule,
    word: usize,
) -> Result<Option<bool>, ReactFault> {
    let maps = occurrences(alloc, plain, rule)?;
    if maps.is_empty() {
        return Ok(None);
    }
    let found = are_found(alloc, indexed, plain, rule, &maps)?;
    let map = &maps[word % maps.len()];
    let holds = react_both(alloc, indexed, plain, rule, map.as_slice())?;
    Ok(Some(found && holds))
}

/// The number of the rule that is drawn by a word; the first where the host is large.
fn number_at(host: &Host, rules: usize, word: usize) -> usize {
    if rules == 0 || host.big().nodes.len() > 40 {
        0
    } else {
        word % rules
    }
}

/// How many of so many turns, whose rules and places are drawn at random, are reactions; 0 where one is not right.
fn turns(
    alloc: Global,
    rules: &[Rule],
    indexed: &mut IndexedHost,
    plain: &mut Host,
    most: usize,
) -> Result<usize, ReactFault> {
    let mut generator = Pcg32::seed_from_u64(1);
    let mut count = 0_usize;
    for _ in 0..most {
        let number = number_at(plain, rules.len(), generator.next_word() as usize);
        let place = generator.next_word() as usize;
        if number < rules.len() {
            match react_at_turn(alloc, indexed, plain, &rules[number], place)? {
                Some(true) => count = count.saturating_add(1),
                Some(false) => return Ok(0),
                None => {}
            }
        }
    }
    Ok(count)
}

fn turns_from(
    alloc: Global,
    rules: &[Rule],
    indexed: &mut IndexedHost,
    most: usize,
) -> Result<usize, ReactFault> {
    let mut plain = indexed.to_host(alloc)?;
    turns(alloc, rules, indexed, &mut plain, most)
}

fn turns_of(alloc: Global, system: &System, most: usize) -> Result<usize, ReactFault> {
    let mut indexed = IndexedHost::of(alloc, system.init())?;
    turns_from(alloc, system.rules(), &mut indexed, most)
}

fn turns_in(alloc: Global, model: Model, most: usize) -> Result<usize, ReactFault> {
    let system = system_of(alloc, text(model))?;
    turns_of(alloc, &system, most)
}

#[test]
fn agents_in_rooms_react_alike(rt: HostRuntime) -> Result<(), ReactFault> {
    let count = turns_in(rt.alloc(), Model::Rooms, 2_000)?;
    assert!(rt; count > 1_500, "{count}");
    Ok(())
}

#[test]
fn cells_react_alike(rt: HostRuntime) -> Result<(), ReactFault> {
    let count = turns_in(rt.alloc(), Model::Cells, 2_000)?;
    assert!(rt; count > 500, "{count}");
    Ok(())
}

/// The node in the first region, if there is one.
fn first_node(indexed: &IndexedHost) -> u32 {
    match indexed.children(Place::Region(0)).first() {
        Some(node) => *node,
        None => 0,
    }
}

/// Whether the host is still this one, and has the rows, after a reaction that was refused for want of room.
fn is_kept(alloc: Global, indexed: &IndexedHost, before: &Host) -> Mem<bool> {
    Ok(is_host(alloc, indexed, before)? && has_rows(indexed, before))
}

/// Whether the host stayed as it was, where it was full.
fn refused(
    alloc: Global,
    indexed: &IndexedHost,
    before: &Host,
    fault: ReactFault,
) -> Result<bool, ReactFault> {
    match fault {
        ReactFault::Full => Ok(is_kept(alloc, indexed, before)?),
        ReactFault::OutOfMemory => Err(ReactFault::OutOfMemory),
    }
}

/// Whether the host is full for the rule and stays as it was; nothing where it reacts.
fn is_full(
    alloc: Global,
    indexed: &mut IndexedHost,
    rule: &Rule,
) -> Result<Option<bool>, ReactFault> {
    let before = indexed.to_host(alloc)?;
    let node = first_node(indexed);
    match react_here(alloc, indexed, rule, &[node]) {
        Ok(_touched) => Ok(None),
        Err(fault) => Ok(Some(refused(alloc, indexed, &before, fault)?)),
    }
}

/// How many reactions there are before the host is full and stays as it was; 0 where it does not.
fn doublings(alloc: Global, system: &System, most: usize) -> Result<usize, ReactFault> {
    let rule = rule_of(system, 0)?;
    let mut indexed = IndexedHost::of(alloc, system.init())?;
    for count in 0..most {
        match is_full(alloc, &mut indexed, rule)? {
            Some(true) => return Ok(count),
            Some(false) => return Ok(0),
            None => {}
        }
    }
    Ok(0)
}

fn doublings_in(alloc: Global, model: Model) -> Result<usize, ReactFault> {
    let system = system_of(alloc, text(model))?;
    doublings(alloc, &system, 20)
}

/// 32,768 nodes in the node have room, and twice as many have not.
#[test]
fn a_full_host_stays(rt: HostRuntime) -> Result<(), ReactFault> {
    let count = doublings_in(rt.alloc(), Model::Doubling)?;
    assert!(rt; count == 15, "{count}");
    Ok(())
}
