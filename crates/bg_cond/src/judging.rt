//! Whether a step is legal, or why not.
ghost use Rattle.std.specs.Prelude.{◌<◌, [], ◌∷◌, length, IfOk, MatchOption};
ghost use Rattle.std.specs.List.{All};
ghost use Rattle.bg_lists.specs.Lists.{At};
ghost use Rattle.bg_rules.specs.Decomposition.{Occurs};
ghost use Rattle.bg_cond.specs.Sides.{LooksForNodes};
ghost use Rattle.bg_cond.specs.Steps.{AreFirstLegal, IsEnabledStep};
ghost use Rattle.bg_cond.specs.Verdicts.{HasClass, IsEnabledLater, IsEnabledThere, IsJudged};

use crate::Verdict;
use crate::holding::first_unmet;
use crate::legal::steps_in;
use crate::plain_host::PlainHost;
use bg_base::Step;
use bg_lists::Mem;
use bg_match::{NumberedHost, occurs_in};
use bg_rules::{Host, Rule, System};
use std::alloc::Global;

/// Whether the step is legal, or the first of these reasons why it is not: there is no rule of that number, its redex does
/// not occur there, a condition does not hold there (the first), a rule of a higher class is enabled somewhere (the first
/// legal step). Costs an index of the host, and what [`judge_in`] costs.
pub fn judge(alloc: Global, host: &Host, system: &System, step: &Step) -> Mem<Verdict>
    ensures { IfOk result (λ verdict. IsJudged host.now system.now.rules step.now verdict) }
{
    let plain = PlainHost::of(alloc, host)?;
    let verdict = judge_in(alloc, &plain, system, step)?;
    Ok(verdict)
}

/// The verdict of [`judge`] at any host that answers a search, which is not indexed anew: costs what [`judge_alone`] costs; and
/// where that does not tell, the search for the first legal step ([`steps_in`]).
pub fn judge_in<H: NumberedHost>(
    alloc: Global,
    host: &H,
    system: &System,
    step: &Step,
) -> Mem<Verdict>
    ensures { IfOk result (λ verdict. IsJudged (H.state host.now) system.now.rules step.now verdict) }
{
    if let Some(verdict) = judge_alone(alloc, host, system, step)? {
        return Ok(verdict);
    }
    let first = steps_in(alloc, host, system, 1)?;
    Ok(judge_beside(host, system, step, first))
}

/// The verdict, as far as the step alone tells it: `None` where it is enabled, and of a class behind class 0. Costs what
/// [`occurs_in`] costs, and for each condition the walk over the occurrences of its pattern up to the first on its side.
pub fn judge_alone<H: NumberedHost>(
    alloc: Global,
    host: &H,
    system: &System,
    step: &Step,
) -> Mem<Option<Verdict>>
    ensures { IfOk result (λ found. MatchOption found (IsEnabledLater (H.state host.now) system.now.rules step.now)
        (λ verdict. IsJudged (H.state host.now) system.now.rules step.now verdict)) }
{
    let _controls = system.signature().len();
    let rules = system.rules();
    if step.rule as usize >= rules.len() {
        return Ok(Some(Verdict::NoRule));
    }
    let found = judge_rule(alloc, host, rules, step)?;
    Ok(found)
}

/// The verdict where the rule is there.
fn judge_rule<H: NumberedHost>(
    alloc: Global,
    host: &H,
    rules: &[Rule],
    step: &Step,
) -> Mem<Option<Verdict>>
    requires looks { All LooksForNodes rules.now }
    requires there { step.now.rule < length rules.now }
    ensures { IfOk result (λ found. MatchOption found (IsEnabledLater (H.state host.now) rules.now step.now)
        (λ verdict. IsJudged (H.state host.now) rules.now step.now verdict)) }
{
    host.keeps();
    let rule = &rules[step.rule as usize];
    let occurs = occurs_in(alloc, host, rule.redex(), step.map.as_slice())?;
    if occurs {
        let found = judge_conditions(alloc, host, rules, rule, step)?;
        return Ok(found);
    }
    Ok(Some(Verdict::NotEmbedding))
}

/// The verdict where the redex occurs.
fn judge_conditions<H: NumberedHost>(
    alloc: Global,
    host: &H,
    rules: &[Rule],
    rule: &Rule,
    step: &Step,
) -> Mem<Option<Verdict>>
    requires looks { All LooksForNodes rules.now }
    requires there { At rule.now step.now.rule rules.now }
    requires occurs { Occurs (H.state host.now).big rule.now.redex step.now.map }
    ensures { IfOk result (λ found. MatchOption found (IsEnabledLater (H.state host.now) rules.now step.now)
        (λ verdict. IsJudged (H.state host.now) rules.now step.now verdict)) }
{
    host.keeps();
    let conditions = rule.conditions();
    match first_unmet(alloc, host, step.map.as_slice(), conditions)? {
        Some(number) => Ok(Some(Verdict::ConditionFails { number })),
        None => Ok(judge_class(host, rules, rule.class(), step)),
    }
}

/// The verdict where the step is enabled: no class comes before class 0.
fn judge_class<H: NumberedHost>(
    _host: &H,
    _rules: &[Rule],
    class: u32,
    _step: &Step,
) -> Option<Verdict>
    requires enabled { IsEnabledStep (H.state _host.now) _rules.now class _step.now }
    ensures { MatchOption result (IsEnabledLater (H.state _host.now) _rules.now _step.now)
        (λ verdict. IsJudged (H.state _host.now) _rules.now _step.now verdict) }
{
    if class == 0 {
        return Some(Verdict::Legal);
    }
    None
}

/// The verdict on a step that is enabled, where the first legal step is given. Takes no memory.
pub fn judge_beside<H: NumberedHost>(
    _host: &H,
    system: &System,
    step: &Step,
    first: Vec<Step>,
) -> Verdict
    requires enabled { IsEnabledThere (H.state _host.now) system.now.rules step.now }
    requires first { AreFirstLegal 1 (H.state _host.now) system.now.rules first.items }
    ensures { IsJudged (H.state _host.now) system.now.rules step.now result }
{
    let rules = system.rules();
    let mut first = first.into_iter();
    match first.next() {
        Some(other) => judge_beside_step(_host, rules, step, other),
        None => Verdict::Legal,
    }
}

/// The verdict where the other step is the first legal one.
fn judge_beside_step<H: NumberedHost>(
    _host: &H,
    rules: &[Rule],
    step: &Step,
    other: Step,
) -> Verdict
    requires enabled { IsEnabledThere (H.state _host.now) rules.now step.now }
    requires first { AreFirstLegal 1 (H.state _host.now) rules.now (other ∷ []) }
    ensures { IsJudged (H.state _host.now) rules.now step.now result }
{
    if class_of(rules, &other) < class_of(rules, step) {
        return Verdict::HigherClass { step: other };
    }
    Verdict::Legal
}

/// The class of the rule of the step.
fn class_of(rules: &[Rule], step: &Step) -> u32
    requires there { step.now.rule < length rules.now }
    ensures { HasClass rules.now step.now.rule result }
{
    rules[step.rule as usize].class()
}
