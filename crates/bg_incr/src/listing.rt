//! The first legal steps of a system without conditions, from the occurrences that are kept.
ghost use Rattle.std.specs.Prelude.{◌≡◌, ◌+◌, ◌<◌, ◌≤◌, ◌^◌, ◌++◌, ⊤, true, length, take, None, IfOk, OnOk, IsTrue, MatchOption};
ghost use Rattle.bg_cond.specs.Found as found;
ghost use Rattle.bg_cond.specs.Found.{IsEnabledBelow, IsHigherOf};
ghost use Rattle.bg_cond.specs.Steps.{AreFirst, AreFirstLegal, IsFirstClass, NoneEnabled};
ghost use Rattle.bg_incr.specs.Finders.{AreKeptFor, AllTellOccurrence, IsKeepable, TellsOccurrence, steps_at};
ghost use Rattle.bg_kept.specs.Lists.{IsKeptList};

use bg_base::{Map, Step};
use bg_cond::steps_in;
use bg_index::IndexedHost;
use bg_kept::KeptList;
use bg_lists::{Duplicate, Mem};
use bg_rules::{Rule, System};
use std::alloc::Global;

/// The first legal steps; where the lists do not reach far enough, as [`steps_in`] lists them.
pub fn steps_from(
    alloc: Global,
    host: &IndexedHost,
    system: &System,
    lists: &[KeptList],
    most: u32,
) -> Mem<Vec<Step>>
    requires kept { AreKeptFor host.now.big system.now.rules lists.now }
    ensures { IfOk result (λ steps. AreFirstLegal most host.now system.now.rules steps.items) }
{
    let _signature = system.signature();
    match kept_steps(alloc, host, system.rules(), lists, most)? {
        Some(steps) => Ok(steps),
        None => steps_in(alloc, host, system, most),
    }
}

/// The first legal steps; none where the lists do not reach far enough.
fn kept_steps(
    alloc: Global,
    host: &IndexedHost,
    rules: &[Rule],
    lists: &[KeptList],
    most: u32,
) -> Mem<Option<Vec<Step>>>
    requires kept { AreKeptFor host.now.big rules.now lists.now }
    requires few { length rules.now < 2 ^ 32 }
    ensures { IfOk result (λ found. MatchOption found ⊤ (λ steps. AreFirstLegal most host.now rules.now steps.items)) }
{
    if !lists.iter().all(is_settled) {
        return Ok(None);
    }
    match first_class(host, rules, lists) {
        None => Ok(Some(Vec::new(alloc))),
        Some(class) => steps_of_class(alloc, host, rules, lists, class, most),
    }
}

/// Whether the list tells whether there is an occurrence.
fn is_settled(list: &KeptList) -> bool
    ensures { IsTrue result → TellsOccurrence list.now }
{
    list.is_whole() || !list.maps().is_empty()
}

/// The first class with an occurrence.
pub fn first_class(_host: &IndexedHost, rules: &[Rule], lists: &[KeptList]) -> Option<u32>
    requires kept { AreKeptFor _host.now.big rules.now lists.now }
    requires settled { AllTellOccurrence lists.now }
    ensures { MatchOption result (NoneEnabled _host.now rules.now) (λ class. IsFirstClass _host.now rules.now class) }
{
    let mut first = None;
    for (number, rule) in rules.iter().enumerate() {
        first = higher_of(_host, rule, &lists[number], first);
    }
    first
}

/// The class of the rule, where it comes before the first so far and the rule's redex occurs; else the first so far.
fn higher_of(_host: &IndexedHost, rule: &Rule, list: &KeptList, first: Option<u32>) -> Option<u32>
    requires keepable { IsKeepable rule.now }
    requires kept { IsKeptList _host.now.big rule.now.redex list.now }
    requires settled { TellsOccurrence list.now }
    ensures { IsHigherOf _host.now rule.now first result }
{
    if is_higher(rule.class(), first) {
        return raised(_host, rule, list, first);
    }
    first
}

/// Whether the class comes before the first so far.
fn is_higher(class: u32, first: Option<u32>) -> bool
    ensures { result ≡ found.is_higher class first }
{
    match first {
        Some(other) => class < other,
        None => true,
    }
}

/// The class of the rule, where its redex occurs; else the first so far.
fn raised(_host: &IndexedHost, rule: &Rule, list: &KeptList, first: Option<u32>) -> Option<u32>
    requires keepable { IsKeepable rule.now }
    requires kept { IsKeptList _host.now.big rule.now.redex list.now }
    requires settled { TellsOccurrence list.now }
    requires higher { found.is_higher rule.now.class first ≡ true }
    ensures { IsHigherOf _host.now rule.now first result }
{
    if list.maps().is_empty() {
        return first;
    }
    Some(rule.class())
}

/// The first steps of the first class; none where the lists do not reach far enough.
fn steps_of_class(
    alloc: Global,
    host: &IndexedHost,
    rules: &[Rule],
    lists: &[KeptList],
    class: u32,
    most: u32,
) -> Mem<Option<Vec<Step>>>
    requires kept { AreKeptFor host.now.big rules.now lists.now }
    requires few { length rules.now < 2 ^ 32 }
    requires first { IsFirstClass host.now rules.now class }
    ensures { IfOk result (λ found. MatchOption found ⊤ (λ steps. AreFirstLegal most host.now rules.now steps.items)) }
{
    let mut steps = Vec::new(alloc);
    for number in 0..rules.len() as u32 {
        if !push_steps(alloc, host, rules, lists, class, number, most, &mut steps)? {
            return Ok(None);
        }
    }
    Ok(Some(steps))
}

/// Appends the steps of the rule, where it is of the class, up to as many as are asked for; gives up where its list does not
/// reach far enough.
fn push_steps(
    alloc: Global,
    _host: &IndexedHost,
    rules: &[Rule],
    lists: &[KeptList],
    class: u32,
    number: u32,
    most: u32,
    steps: &mut Vec<Step>,
) -> Mem<bool>
    requires kept { AreKeptFor _host.now.big rules.now lists.now }
    requires there { number < length rules.now }
    requires before { AreFirst most (IsEnabledBelow _host.now rules.now class number) steps.old.items }
    ensures { IfOk result (λ enough. enough ≡ true → AreFirst most (IsEnabledBelow _host.now rules.now class (number + 1)) steps.new.items) }
{
    let rule = &rules[number as usize];
    if rule.class() != class {
        return Ok(true);
    }
    let list = &lists[number as usize];
    if !list.is_whole() && steps.len().saturating_add(list.maps().len()) < most as usize {
        return Ok(false);
    }
    push_kept(alloc, number, list.maps(), most, steps)?;
    Ok(true)
}

/// Appends the steps of the rule at the maps, up to as many as are asked for.
fn push_kept(alloc: Global, number: u32, maps: &[Map], most: u32, steps: &mut Vec<Step>) -> Mem<()>
    requires few { length steps.old.items ≤ most }
    ensures { OnOk result (steps.new.items ≡ take most (steps.old.items ++ steps_at number maps.now)) }
{
    for map in maps {
        if steps.len() >= most as usize {
            return Ok(());
        }
        let map = map.copy(alloc)?;
        steps.push(Step { rule: number, map })?;
    }
    Ok(())
}
