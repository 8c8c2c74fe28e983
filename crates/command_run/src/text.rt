//! The text of a run.
ghost use Rattle.std.specs.Prelude.{◌≡◌, ◌≤◌, ◌++◌, length, map, IfOk, OnOk, OnErr};
ghost use Rattle.bg_base.specs.Limits.{most_steps};
ghost use Rattle.bg_cond.specs.Steps.{IsRun};
ghost use Rattle.command_run.specs.RunText as text;
ghost use Rattle.command_run.specs.RunText.{AreTold, IsRunText};
ghost use Rattle.command_run.specs.Told.{IsToldRun};

use crate::counting::counts_of;
use crate::predicates::truths_of;
use crate::watching::put_watched;
use bg_cond::Gate;
use bg_journal::{write_end, write_host, write_journal};
use bg_listing::write_label;
use bg_lists::Mem;
use bg_rules::{Predicate, System};
use bg_runs::{FinishedRun, run};
use bg_watch::Watcher;
use std::alloc::Global;
use std::sync::Wait;
use std::thread::Threads;

/// The text of a run of the system by so many workers, of at most so many entries; with one worker of the run that the seed
/// draws. The watchers are told of its entries. Without memory they are told of nothing.
pub(crate) fn text_of<G: Gate + Sync, R: Threads + Wait + Sync>(
    rt: &R,
    alloc: Global,
    system: System,
    most: u32,
    workers: u32,
    seed: u64,
    watchers: &mut Vec<Box<dyn Watcher>>,
    gate: &G,
) -> Mem<Vec<u8>>
    requires most { most ≤ most_steps }
    requires workers { (1 ≤ workers) × (workers ≤ 64) }
    ensures text { IfOk result (λ text. IsRunText system most workers seed (map (λ w. state w) watchers.old.items) (map (λ w. state w) watchers.new.items) text.items) }
    ensures no_memory { OnErr result (watchers.new ≡ watchers.old) }
{
    let finished = run(rt, alloc, system, most, workers, seed, gate)?;
    let truths = truths_of_run(rt, alloc, &finished)?;
    let text = text_of_run(alloc, &finished, truths.as_slice(), watchers)?;
    Ok(text)
}

/// For each predicate of the system whether its pattern occurs in the last host.
fn truths_of_run<R: Threads + Sync>(rt: &R, alloc: Global, run: &FinishedRun) -> Mem<Vec<bool>>
    ensures { IfOk result (λ truths. AreTold run.now.host.big run.now.system.preds truths.items) }
{
    let truths = truths_of(rt, alloc, &run.host, run.system.preds())?;
    Ok(truths)
}

/// The text of the run, of which the predicates are told so. The watchers are told of its entries.
fn text_of_run(
    alloc: Global,
    run: &FinishedRun,
    truths: &[bool],
    watchers: &mut Vec<Box<dyn Watcher>>,
) -> Mem<Vec<u8>>
    requires run { IsRun run.now.system.rules run.now.system.init run.now.journal run.now.host }
    requires truths { AreTold run.now.host.big run.now.system.preds truths.now }
    ensures text { IfOk result (λ text. IsToldRun run.now (map (λ w. state w) watchers.old.items) (map (λ w. state w) watchers.new.items) text.items) }
    ensures no_memory { OnErr result (watchers.new ≡ watchers.old) }
{
    let counts = counts_of(alloc, &run.system, run.journal.as_slice())?;
    let mut text = Vec::new(alloc);
    put_front(alloc, run, truths, &mut text)?;
    let mut last = Vec::new(alloc);
    write_host(alloc, run.system.signature(), &run.host, &mut last)?;
    put_watched(
        watchers,
        run.journal.as_slice(),
        counts.as_slice(),
        last.as_slice(),
        &mut text,
    )?;
    Ok(text)
}

/// The journal, the end, and a line for each predicate, behind what is there. After an error the bytes behind are of no use;
/// so of the functions below.
#[tactic(auto, unfolding(crate::specs::RunText::front_text))]
fn put_front(alloc: Global, run: &FinishedRun, truths: &[bool], out: &mut Vec<u8>) -> Mem<()>
    requires { length truths.now ≡ length run.now.system.preds }
    ensures { OnOk result (out.new.items ≡ out.old.items ++ text.front_text run.now.system run.now.journal run.now.end truths.now) }
{
    write_journal(alloc, &run.journal, out)?;
    write_end(alloc, &run.end, out)?;
    put_predicates(alloc, run.system.preds(), truths, out)
}

/// The lines of the predicates.
fn put_predicates(
    alloc: Global,
    predicates: &[Predicate],
    truths: &[bool],
    out: &mut Vec<u8>,
) -> Mem<()>
    requires as_many { length truths.now ≡ length predicates.now }
    ensures { OnOk result (out.new.items ≡ out.old.items ++ text.predicate_lines predicates.now truths.now) }
{
    for number in 0..predicates.len() {
        put_predicate(alloc, &predicates[number], truths[number], out)?;
    }
    Ok(())
}

/// The line of the predicate.
#[tactic(auto, unfolding(crate::specs::RunText::predicate_line))]
fn put_predicate(alloc: Global, predicate: &Predicate, truth: bool, out: &mut Vec<u8>) -> Mem<()>
    ensures { OnOk result (out.new.items ≡ out.old.items ++ text.predicate_line predicate.now truth) }
{
    out.extend_from_slice(b"pred ")?;
    write_label(alloc, &predicate.label, out)?;
    out.push(b' ')?;
    put_truth(truth, out)?;
    out.push(b'\n')?;
    Ok(())
}

/// The word of the truth.
fn put_truth(truth: bool, out: &mut Vec<u8>) -> Mem<()>
    ensures { OnOk result (out.new.items ≡ out.old.items ++ text.truth_text truth) }
{
    if truth {
        out.extend_from_slice(b"true")?;
    } else {
        out.extend_from_slice(b"false")?;
    }
    Ok(())
}
