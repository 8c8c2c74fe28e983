//! The first class with a rule that is enabled, and the steps of its rules.
ghost use Rattle.std.specs.Prelude.{◌≡◌, ◌<◌, ◌+◌, ◌^◌, ◌++◌, ◌∷◌, [], true, length, IfOk, OnOk, MatchOption};
ghost use Rattle.std.specs.List.{All};
ghost use Rattle.bg_lists.specs.Lists.{At};
ghost use Rattle.bg_cond.specs.Found as found;
ghost use Rattle.bg_cond.specs.Found.{IsHigherOf, IsEnabledBelow};
ghost use Rattle.bg_cond.specs.Lists.{AreListsOfConditions};
ghost use Rattle.bg_cond.specs.Sides.{LooksForNodes};
ghost use Rattle.bg_cond.specs.Steps.{IsFirstClass, NoneEnabled, AreFirst, AreFirstLegal};

use crate::enabling::{is_enabled_at, is_enabled_somewhere};
use crate::listed::{Listed, lists_for};
use crate::plain_host::PlainHost;
use bg_base::{Map, Step};
use bg_lists::Mem;
use bg_match::{NumberedHost, Walk};
use bg_rules::{Host, Rule, System};
use std::alloc::Global;

/// The highest class with a rule that is enabled somewhere, that is the one with the least number; `None` where no rule
/// is enabled anywhere. Costs an index of the host, and for each rule of a class that may be it a walk over the
/// occurrences of its redex up to the first at which it is enabled. Where the rule has conditions, the occurrences of
/// their patterns are listed once; at each occurrence of the redex those lists are gone through up to the first map on
/// the condition's side, and a pattern that has more than 65,536 occurrences, or whose maps have more than 1,048,576 numbers
/// together, is looked for anew.
pub fn first_class(alloc: Global, host: &Host, system: &System) -> Mem<Option<u32>>
    ensures { IfOk result (λ class. MatchOption class (NoneEnabled host.now system.now.rules) (λ number. IsFirstClass host.now system.now.rules number)) }
{
    let _controls = system.signature().len();
    let plain = PlainHost::of(alloc, host)?;
    let class = first_class_among(alloc, &plain, system.rules())?;
    Ok(class)
}

/// The first `most` legal steps, by rule and then by map. Costs what [`first_class`] costs, and a walk over the
/// occurrences of the redex of each rule of the class, up to as many steps as are asked for.
pub fn steps(alloc: Global, host: &Host, system: &System, most: u32) -> Mem<Vec<Step>>
    ensures { IfOk result (λ steps. AreFirstLegal most host.now system.now.rules steps.items) }
{
    let plain = PlainHost::of(alloc, host)?;
    let steps = steps_in(alloc, &plain, system, most)?;
    Ok(steps)
}

/// The first `most` legal steps, by rule and then by map, at any host that answers a search, which is not indexed anew: costs
/// what [`steps`] costs but for the index.
pub fn steps_in<H: NumberedHost>(
    alloc: Global,
    host: &H,
    system: &System,
    most: u32,
) -> Mem<Vec<Step>>
    ensures { IfOk result (λ steps. AreFirstLegal most (H.state host.now) system.now.rules steps.items) }
{
    let _controls = system.signature().len();
    let steps = first_legal(alloc, host, system.rules(), most)?;
    Ok(steps)
}

/// The first class among these rules.
pub(crate) fn first_class_among<H: NumberedHost>(
    alloc: Global,
    host: &H,
    rules: &[Rule],
) -> Mem<Option<u32>>
    requires looks { All LooksForNodes rules.now }
    ensures { IfOk result (λ class. MatchOption class (NoneEnabled (H.state host.now) rules.now) (λ number. IsFirstClass (H.state host.now) rules.now number)) }
{
    let mut first = None;
    for rule in rules {
        first = higher_of(alloc, host, rule, first)?;
    }
    Ok(first)
}

/// The class of the rule, where it comes before the first so far and the rule is enabled somewhere; else the first so
/// far.
fn higher_of<H: NumberedHost>(
    alloc: Global,
    host: &H,
    rule: &Rule,
    first: Option<u32>,
) -> Mem<Option<u32>>
    requires looks { LooksForNodes rule.now }
    ensures { IfOk result (λ new. IsHigherOf (H.state host.now) rule.now first new) }
{
    if is_higher(rule.class(), first) {
        let new = raised(alloc, host, rule, first)?;
        return Ok(new);
    }
    Ok(first)
}

/// Whether the class comes before the first so far.
fn is_higher(class: u32, first: Option<u32>) -> bool
    ensures { result ≡ found.is_higher class first }
{
    match first {
        Some(other) => class < other,
        None => true,
    }
}

/// The class of the rule, where that is enabled somewhere; else the first so far.
fn raised<H: NumberedHost>(
    alloc: Global,
    host: &H,
    rule: &Rule,
    first: Option<u32>,
) -> Mem<Option<u32>>
    requires looks { LooksForNodes rule.now }
    requires higher { found.is_higher rule.now.class first ≡ true }
    ensures { IfOk result (λ new. IsHigherOf (H.state host.now) rule.now first new) }
{
    if is_enabled_somewhere(alloc, host, rule)? {
        return Ok(Some(rule.class()));
    }
    Ok(first)
}

/// The first legal steps.
fn first_legal<H: NumberedHost>(
    alloc: Global,
    host: &H,
    rules: &[Rule],
    most: u32,
) -> Mem<Vec<Step>>
    requires looks { All LooksForNodes rules.now }
    requires few { length rules.now < 2 ^ 32 }
    ensures { IfOk result (λ steps. AreFirstLegal most (H.state host.now) rules.now steps.items) }
{
    match first_class_among(alloc, host, rules)? {
        None => Ok(Vec::new(alloc)),
        Some(class) => steps_of_class(alloc, host, rules, class, most),
    }
}

/// The first steps of the first class.
pub(crate) fn steps_of_class<H: NumberedHost>(
    alloc: Global,
    host: &H,
    rules: &[Rule],
    class: u32,
    most: u32,
) -> Mem<Vec<Step>>
    requires looks { All LooksForNodes rules.now }
    requires few { length rules.now < 2 ^ 32 }
    requires first { IsFirstClass (H.state host.now) rules.now class }
    ensures { IfOk result (λ steps. AreFirstLegal most (H.state host.now) rules.now steps.items) }
{
    let mut steps = Vec::new(alloc);
    for number in 0..rules.len() as u32 {
        push_steps(alloc, host, rules, class, number, most, &mut steps)?;
    }
    Ok(steps)
}

/// Appends the steps of the rule, where it is of the class, up to as many as are asked for.
fn push_steps<H: NumberedHost>(
    alloc: Global,
    host: &H,
    rules: &[Rule],
    class: u32,
    number: u32,
    most: u32,
    steps: &mut Vec<Step>,
) -> Mem<()>
    requires looks { All LooksForNodes rules.now }
    requires there { number < length rules.now }
    requires before { AreFirst most (IsEnabledBelow (H.state host.now) rules.now class number) steps.old.items }
    ensures { OnOk result (AreFirst most (IsEnabledBelow (H.state host.now) rules.now class (number + 1)) steps.new.items) }
{
    let rule = &rules[number as usize];
    if rule.class() != class {
        return Ok(());
    }
    let lists = lists_for(alloc, host, rule)?;
    push_steps_of(
        alloc,
        host,
        rules,
        rule,
        lists.as_slice(),
        number,
        most,
        steps,
    )?;
    Ok(())
}

/// Appends the steps of the rule, where the lists are those of its conditions, up to as many as are asked for.
fn push_steps_of<H: NumberedHost>(
    alloc: Global,
    host: &H,
    _rules: &[Rule],
    rule: &Rule,
    lists: &[Option<Listed>],
    number: u32,
    most: u32,
    steps: &mut Vec<Step>,
) -> Mem<()>
    requires looks { LooksForNodes rule.now }
    requires there { At rule.now number _rules.now }
    requires lists { AreListsOfConditions (H.big host.now) rule.now.conditions lists.now }
    requires before { AreFirst most (IsEnabledBelow (H.state host.now) _rules.now rule.now.class number) steps.old.items }
    ensures { OnOk result (AreFirst most (IsEnabledBelow (H.state host.now) _rules.now rule.now.class (number + 1)) steps.new.items) }
{
    host.keeps();
    let mut walk = Walk::new(alloc, host, rule.redex())?;
    while steps.len() < most as usize {
        let Some(map) = walk.next()? else {
            return Ok(());
        };
        if is_enabled_at(alloc, host, rule, lists, map.as_slice())? {
            push_step(steps, number, map)?;
        }
    }
    Ok(())
}

/// Appends the step.
fn push_step(steps: &mut Vec<Step>, rule: u32, map: Map) -> Mem<()>
    ensures { OnOk result (steps.new.items ≡ steps.old.items ++ record { rule = rule; map = map } ∷ []) }
{
    steps.push(Step { rule, map })?;
    Ok(())
}
