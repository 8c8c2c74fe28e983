//! What is said of steps, and the first class. Legal steps are shown by `run`.
use crate::models::{step_of, system_of};
use bg_base::Step;
use bg_cond::{Verdict, first_class, judge};
use bg_lists::Mem;
use bg_rules::System;
use std::alloc::Global;

/// A guard in the context, or in the parameter, or nowhere.
const GUARD_BESIDE: &str = "ctrl Box = 0; atomic ctrl Guard = 0; big s = Box.1 | Guard;
react r = Box.id --> Box.id if !Guard in ctx; begin brs init s; rules = [ {r} ]; end";

const GUARD_INSIDE: &str = "ctrl Box = 0; atomic ctrl Guard = 0; big s = Box.Guard;
react r = Box.id --> Box.id if !Guard in ctx; begin brs init s; rules = [ {r} ]; end";

/// The first class has a rule that occurs and is not enabled.
const SECOND_CLASS: &str =
    "atomic ctrl A = 0; atomic ctrl B = 0; atomic ctrl D = 0; atomic ctrl Guard = 0; big s = A;
react hi = A --> B if Guard in ctx; react lo = A --> D; begin brs init s; rules = [ {hi}, {lo} ]; end";

/// Both rules are enabled.
const FIRST_CLASS: &str = "atomic ctrl A = 0; atomic ctrl B = 0; big s = A | B | B;
react hi = A --> A; react lo = B --> B; begin brs init s; rules = [ {hi}, {lo} ]; end";

/// Of three conditions the second and the third fail.
const THIRD_FAILS_TOO: &str =
    "ctrl Box = 0; atomic ctrl A = 0; atomic ctrl B = 0; big s = Box.A | B;
react r = Box.id --> Box.id if A in param, B in param, !B in ctx; begin brs init s; rules = [ {r} ]; end";

/// A redex without a site: its parameter is empty.
const NOTHING_INSIDE: &str = "atomic ctrl A = 0; big s = A | A;
react r = A --> A if !A in param; react q = A --> A if A in param; begin brs init s; rules = [ {r, q} ]; end";

/// What is said of a step.
#[derive(Clone, Copy, PartialEq, Eq)]
enum Said {
    Legal,
    NoRule,
    NotEmbedding,
    ConditionFails(u32),
    /// The rule and the one node of the first legal step.
    HigherClass(u32, u32),
}

/// A model, a step by its rule and its nodes, what is said of it, and the first class.
const CASES: [(&str, u32, &[u32], Said, Option<u32>); 10] = [
    (GUARD_BESIDE, 0, &[0], Said::ConditionFails(0), None),
    (GUARD_INSIDE, 0, &[0], Said::Legal, Some(0)),
    (GUARD_INSIDE, 0, &[1], Said::NotEmbedding, Some(0)),
    (GUARD_INSIDE, 1, &[0], Said::NoRule, Some(0)),
    (SECOND_CLASS, 0, &[0], Said::ConditionFails(0), Some(1)),
    (SECOND_CLASS, 1, &[0], Said::Legal, Some(1)),
    (FIRST_CLASS, 1, &[2], Said::HigherClass(0, 0), Some(0)),
    (THIRD_FAILS_TOO, 0, &[0], Said::ConditionFails(1), None),
    (NOTHING_INSIDE, 1, &[0], Said::ConditionFails(0), Some(0)),
    (NOTHING_INSIDE, 0, &[1, 1], Said::NotEmbedding, Some(0)),
];

/// What the verdict says.
fn said_by(verdict: &Verdict) -> Said {
    match verdict {
        Verdict::Legal => Said::Legal,
        Verdict::NoRule => Said::NoRule,
        Verdict::NotEmbedding => Said::NotEmbedding,
        Verdict::ConditionFails { number } => Said::ConditionFails(*number),
        Verdict::HigherClass { step } => match step.map.as_slice() {
            [node] => Said::HigherClass(step.rule, *node),
            _ => Said::NoRule,
        },
    }
}

/// What is said of the step.
fn said_of(alloc: Global, system: &System, step: &Step) -> Mem<Said> {
    let verdict = judge(alloc, system.init(), system, step)?;
    Ok(said_by(&verdict))
}

/// What is said of the step of the rule at the nodes.
fn said_at(alloc: Global, system: &System, rule: u32, nodes: &[u32]) -> Mem<Said> {
    let step = step_of(alloc, rule, nodes)?;
    said_of(alloc, system, &step)
}

/// What is said of the step, and the first class.
fn judged(alloc: Global, system: &System, rule: u32, nodes: &[u32]) -> Mem<(Said, Option<u32>)> {
    let class = first_class(alloc, system.init(), system)?;
    let said = said_at(alloc, system, rule, nodes)?;
    Ok((said, class))
}

/// What is said of the step in the model's system, and the first class.
fn judged_in(alloc: Global, model: &str, rule: u32, nodes: &[u32]) -> Mem<(Said, Option<u32>)> {
    let system = system_of(alloc, model)?;
    judged(alloc, &system, rule, nodes)
}

#[test]
fn steps_have_the_verdict_of_the_first_reason_against_them(rt: HostRuntime) -> Mem<()> {
    for &(model, rule, nodes, said, class) in CASES.iter() {
        assert!(rt;
            judged_in(rt.alloc(), model, rule, nodes)? == (said, class),
            "{model}"
        );
    }
    Ok(())
}
