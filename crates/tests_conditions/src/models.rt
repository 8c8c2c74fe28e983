//! Systems of models, and steps.
use bg_base::Step;
use bg_elab::read;
use bg_lists::{Mem, OutOfMemory, Rows};
use bg_rules::{Rule, System};
use std::alloc::Global;

/// The system that the text describes. A text that describes none ends the test as want of memory does.
pub(crate) fn system_of(alloc: Global, text: &str) -> Mem<System> {
    if text.len() > 1_000 {
        return Err(OutOfMemory);
    }
    match read(alloc, text.as_bytes()) {
        Ok(system) => Ok(system),
        Err(_fault) => Err(OutOfMemory),
    }
}

/// The system's first rule.
pub(crate) fn first_rule(system: &System) -> Mem<&Rule> {
    match system.rules().first() {
        Some(rule) => Ok(rule),
        None => Err(OutOfMemory),
    }
}

/// The step of the rule at the nodes.
pub(crate) fn step_of(alloc: Global, rule: u32, nodes: &[u32]) -> Mem<Step> {
    Ok(Step {
        rule,
        map: Rows::try_from_vec(nodes.to_vec(alloc)?)?,
    })
}
