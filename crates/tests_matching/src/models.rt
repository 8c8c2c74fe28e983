//! Systems of models.
use bg_elab::read;
use bg_lists::{Mem, OutOfMemory};
use bg_rules::{Pattern, Rule, System};
use std::alloc::Global;

/// The system that the text describes. A text that describes none ends the test as want of memory does.
pub fn system_of(alloc: Global, text: &str) -> Mem<System> {
    if text.len() > 1_000 {
        return Err(OutOfMemory);
    }
    match read(alloc, text.as_bytes()) {
        Ok(system) => Ok(system),
        Err(_fault) => Err(OutOfMemory),
    }
}

/// The system's rule of that number.
pub fn rule_of(system: &System, number: usize) -> Mem<&Rule> {
    match system.rules().get(number) {
        Some(rule) => Ok(rule),
        None => Err(OutOfMemory),
    }
}

/// The redex of the system's first rule.
pub fn redex_of(system: &System) -> Mem<&Pattern> {
    let rule = rule_of(system, 0)?;
    Ok(rule.redex())
}
