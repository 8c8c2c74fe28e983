//! The text of a trial.
ghost use Rattle.std.specs.Prelude.{◌≡◌, ◌++◌, length, IfOk, OnOk};
ghost use Rattle.command_trial.specs.TrialText as definition;
ghost use Rattle.command_trial.specs.TrialText.{IsTrialText};

use crate::counting::counts_of;
use bg_base::Big;
use bg_journal::write_end;
use bg_listing::{write_label, write_number, write_size};
use bg_lists::{Duplicate, Mem};
use bg_rules::{Rule, System};
use bg_workers::{DrawnRun, Picker, draw};
use std::alloc::Global;
use std::thread::Threads;

/// The most steps of the run of a trial.
const MOST_TRIAL_STEPS: u32 = 1_000;

/// The text of a trial of the system: how often its rules occur, and how the run ends that seed 0 draws. Costs the
/// lists of the occurrences of the rules, and the run.
pub(crate) fn summary_of<R: Threads + Sync>(
    rt: &R,
    alloc: Global,
    system: &System,
    size: u32,
) -> Mem<Vec<u8>>
    ensures { IfOk result (λ text. IsTrialText size system.now text.items) }
{
    let counts = counts_of(rt, alloc, system)?;
    let host = system.init().copy(alloc)?;
    let run = draw(
        alloc,
        system,
        host,
        MOST_TRIAL_STEPS,
        &mut Picker::new(0, 0),
    )?;
    let mut text = Vec::new(alloc);
    put_front(alloc, size, system, counts.as_slice(), &mut text)?;
    put_end(alloc, &run, &mut text)?;
    Ok(text)
}

/// The size, how large the host is at first, and the rules, behind what is there. After an error the bytes behind are of no
/// use; so of the functions below.
#[tactic(auto, unfolding(crate::specs::TrialText::trial_front_text))]
fn put_front(
    alloc: Global,
    size: u32,
    system: &System,
    counts: &[usize],
    out: &mut Vec<u8>,
) -> Mem<()>
    requires { length counts.now ≡ length system.now.rules }
    ensures { OnOk result (out.new.items ≡ out.old.items ++ definition.trial_front_text size system.now counts.now) }
{
    out.extend_from_slice(b"trial ")?;
    write_number(alloc, size, out)?;
    out.push(b'\n')?;
    put_size(alloc, system.init().big(), out)?;
    put_rules(alloc, system.rules(), counts, out)
}

/// How many steps were made, how they ended, and how large the host is after them.
#[tactic(auto, unfolding(crate::specs::TrialText::end_text))]
fn put_end(alloc: Global, run: &DrawnRun, out: &mut Vec<u8>) -> Mem<()>
    ensures { OnOk result (out.new.items ≡ out.old.items ++ definition.end_text run.now.journal run.now.end run.now.host) }
{
    out.extend_from_slice(b"steps ")?;
    write_number(alloc, run.journal.len(), out)?;
    out.push(b' ')?;
    write_end(alloc, &run.end, out)?;
    out.extend_from_slice(b"host ")?;
    put_size(alloc, run.host.big(), out)
}

/// How many nodes and edges there are.
#[tactic(auto, unfolding(crate::specs::TrialText::size_text))]
fn put_size(alloc: Global, big: &Big, out: &mut Vec<u8>) -> Mem<()>
    ensures { OnOk result (out.new.items ≡ out.old.items ++ definition.size_text big.now) }
{
    out.extend_from_slice(b"nodes ")?;
    write_number(alloc, big.nodes.len(), out)?;
    out.extend_from_slice(b" edges ")?;
    write_number(alloc, big.edges.len(), out)?;
    out.push(b'\n')?;
    Ok(())
}

/// The lines of the rules.
fn put_rules(alloc: Global, rules: &[Rule], counts: &[usize], out: &mut Vec<u8>) -> Mem<()>
    requires { length counts.now ≡ length rules.now }
    ensures { OnOk result (out.new.items ≡ out.old.items ++ definition.rule_lines 0 rules.now counts.now) }
{
    for number in 0..rules.len() {
        put_rule(alloc, number, &rules[number], counts[number], out)?;
    }
    Ok(())
}

/// The line of the rule.
#[tactic(auto, unfolding(crate::specs::TrialText::trial_rule_line))]
fn put_rule(alloc: Global, number: usize, rule: &Rule, count: usize, out: &mut Vec<u8>) -> Mem<()>
    ensures { OnOk result (out.new.items ≡ out.old.items ++ definition.trial_rule_line number rule.now count) }
{
    out.extend_from_slice(b"rule ")?;
    write_size(alloc, number, out)?;
    out.push(b' ')?;
    write_label(alloc, rule.label(), out)?;
    out.extend_from_slice(b" count ")?;
    write_size(alloc, count, out)?;
    out.push(b'\n')?;
    Ok(())
}
