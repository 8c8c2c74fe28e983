//! The step that is picked of the first legal ones, from the occurrences that are kept: these are counted, and one is copied.
ghost use Rattle.std.specs.Prelude.{◌≡◌, ◌<◌, ◌^◌, length, take, IfOk, OnErr, MatchOption};
ghost use Rattle.bg_lists.specs.Lists.{At};
ghost use Rattle.bg_cond.specs.Drawn.{IsPick, most_candidates};
ghost use Rattle.bg_cond.specs.Picks.{next_state};
ghost use Rattle.bg_cond.specs.Steps.{HasNoStep, IsFirstClass};
ghost use Rattle.bg_incr.specs.Finders.{AreKeptFor};
ghost use Rattle.bg_incr.specs.Picking.{kept_maps, steps_kept};

use crate::listing::first_class;
use bg_base::{Map, Step};
use bg_cond::{MOST_CANDIDATES, Picker};
use bg_index::IndexedHost;
use bg_kept::KeptList;
use bg_lists::{Duplicate, Mem};
use bg_rules::{Rule, System};
use std::alloc::Global;

/// The step that the picker picks of the first legal ones, none where no step is legal. Costs a look at the list of each rule, and
/// a copy of the step. Where there is no memory no word is taken.
pub fn pick_from(
    alloc: Global,
    host: &IndexedHost,
    system: &System,
    lists: &[KeptList],
    picker: &mut Picker,
) -> Mem<Option<Step>>
    requires kept { AreKeptFor host.now.big system.now.rules lists.now }
    ensures picked { IfOk result (λ found. MatchOption found (HasNoStep host.now system.now.rules × (picker.new ≡ picker.old))
        (λ step. IsPick host.now system.now.rules picker.old step × (picker.new ≡ next_state picker.old))) }
    ensures no_memory { OnErr result (picker.new ≡ picker.old) }
{
    let _signature = system.signature();
    let rules = system.rules();
    match first_class(host, rules, lists) {
        Some(class) => pick_in(alloc, host, rules, lists, class, picker),
        None => Ok(None),
    }
}

/// The step that the picker picks of the first ones of the first class.
fn pick_in(
    alloc: Global,
    _host: &IndexedHost,
    rules: &[Rule],
    lists: &[KeptList],
    class: u32,
    picker: &mut Picker,
) -> Mem<Option<Step>>
    requires kept { AreKeptFor _host.now.big rules.now lists.now }
    requires few { length rules.now < 2 ^ 32 }
    requires first { IsFirstClass _host.now rules.now class }
    ensures picked { IfOk result (λ found. MatchOption found (HasNoStep _host.now rules.now × (picker.new ≡ picker.old))
        (λ step. IsPick _host.now rules.now picker.old step × (picker.new ≡ next_state picker.old))) }
    ensures no_memory { OnErr result (picker.new ≡ picker.old) }
{
    let count = count_of(rules, lists, class);
    if count == 0 {
        return Ok(None);
    }
    let place = picker.ahead(count)?;
    let step = step_at(alloc, rules, lists, class, place)?;
    picker.pick(count);
    Ok(Some(step))
}

/// How many steps of the class are kept, up to 4,096.
fn count_of(rules: &[Rule], lists: &[KeptList], class: u32) -> u32
    requires as_many { length lists.now ≡ length rules.now }
    ensures { result ≡ length (take most_candidates (steps_kept class 0 rules.now lists.now)) }
{
    let mut count = 0;
    for (number, rule) in rules.iter().enumerate() {
        let more = maps_of(rule, &lists[number], class).len();
        if more >= (MOST_CANDIDATES - count) as usize {
            return MOST_CANDIDATES;
        }
        count += more as u32;
    }
    count
}

/// The maps that are kept of the rule, where it is of the class.
fn maps_of<'l>(rule: &Rule, list: &'l KeptList, class: u32) -> &'l [Map]
    ensures { result.now ≡ kept_maps class rule.now list.now }
{
    if rule.class() == class {
        list.maps()
    } else {
        &[]
    }
}

/// The step of the class at that place, of those that are kept.
fn step_at(alloc: Global, rules: &[Rule], lists: &[KeptList], class: u32, place: u32) -> Mem<Step>
    requires as_many { length lists.now ≡ length rules.now }
    requires few { length rules.now < 2 ^ 32 }
    requires inside { place < length (steps_kept class 0 rules.now lists.now) }
    ensures { IfOk result (λ step. At step place (steps_kept class 0 rules.now lists.now)) }
{
    let mut left = place as usize;
    for (number, rule) in rules.iter().enumerate() {
        let maps = maps_of(rule, &lists[number], class);
        if left < maps.len() {
            let step = step_of(alloc, number as u32, &maps[left])?;
            return Ok(step);
        }
        left -= maps.len();
    }
    unreachable!()
}

/// The step of the rule at the map.
fn step_of(alloc: Global, rule: u32, map: &Map) -> Mem<Step>
    ensures { IfOk result (λ step. step ≡ record { rule = rule; map = map.now }) }
{
    let map = map.copy(alloc)?;
    Ok(Step { rule, map })
}
