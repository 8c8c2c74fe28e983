//! A worker: it looks, finds, picks and commits until it comes to an end.
ghost use Rattle.std.specs.Prelude.{◌≡◌, [], IfOk, MatchOption, OnErr};
ghost use Rattle.bg_cond.specs.Boards.{IsFound, IsCommitted};
ghost use Rattle.bg_cond.specs.Drawn.{IsPick};
ghost use Rattle.bg_cond.specs.Picks.{next_state};
ghost use Rattle.bg_cond.specs.Steps.{HasNoStep};
ghost use Rattle.bg_rules.specs.Systems.{IsSystem};
ghost use Rattle.bg_workers.specs.Turns.{IsLater};
ghost use Rattle.bg_workers.specs.Working.{IsEnded, IsLonger, IsOwn, IsDrawn, HasTurned};

use crate::ends::Ended;
use bg_cond::{Board, Commit, Finder, Found, Gate, MOST_CANDIDATES, Moment, Picker, View};
use bg_lists::Mem;
use bg_rules::System;
use std::alloc::Global;
use std::sync::Wait;

/// Works until an end: looks at the host, finds the first 4,096 legal steps, picks one of them, commits it, and begins
/// again. It ends with `Limit` where `limit` entries were seen, `Quiet` where no step is legal at the host after fewer, and
/// `Full` where what the picked step leads to passes a limit of a host. The gate is told of `Found` before each commit and
/// of `Done` or `Refused` after it.
///
/// Where the pass had seen nothing, and all that it has seen at the end is its worker's own, the entries and the end are those
/// that the generator draws. The generator goes on, word by word, and never back. It refuses for want of memory alone: what was
/// committed then stands, and the gate is not told of a commit that found no memory. It looks at most `limit` + 1 times, and
/// may wait at each look and at each commit.
pub fn work<B: Board, F: Finder, G: Gate, R: Wait>(
    rt: &R,
    alloc: Global,
    board: &B,
    pass: &mut B::Pass,
    system: &System,
    limit: u32,
    finder: &mut F,
    picker: &mut Picker,
    worker: u32,
    gate: &G,
) -> Mem<Ended>
    requires of { B.is_of board.now pass.old }
    requires board { (system.now ≡ B.system board.now) × (limit ≡ B.limit board.now) × (worker ≡ B.worker pass.old) }
    ensures of { B.is_of board.now pass.new × (B.worker pass.new ≡ B.worker pass.old) }
    ensures longer { IsLonger (B.seen pass.old) (B.seen pass.new) }
    ensures ended { IfOk result (λ ended. IsEnded system.now limit (B.seen pass.new) ended) }
    ensures drawn { B.seen pass.old ≡ [] → IsOwn worker (B.seen pass.new) → IfOk result (λ ended. IsDrawn system.now limit worker picker.old (B.seen pass.new) ended) }
    ensures later { IsLater picker.old picker.new }
{
    let _signature = system.signature();
    work_on(
        rt, alloc, board, pass, system, limit, finder, picker, worker, gate,
    )
}

/// The turns of a worker, up to the last.
fn work_on<B: Board, F: Finder, G: Gate, R: Wait>(
    rt: &R,
    alloc: Global,
    board: &B,
    pass: &mut B::Pass,
    system: &System,
    limit: u32,
    finder: &mut F,
    picker: &mut Picker,
    worker: u32,
    gate: &G,
) -> Mem<Ended>
    requires of { B.is_of board.now pass.old }
    requires board { (system.now ≡ B.system board.now) × (limit ≡ B.limit board.now) × (worker ≡ B.worker pass.old) }
    requires system { IsSystem system.now }
    ensures of { B.is_of board.now pass.new × (B.worker pass.new ≡ B.worker pass.old) }
    ensures longer { IsLonger (B.seen pass.old) (B.seen pass.new) }
    ensures ended { IfOk result (λ ended. IsEnded system.now limit (B.seen pass.new) ended) }
    ensures drawn { B.seen pass.old ≡ [] → IsOwn worker (B.seen pass.new) → IfOk result (λ ended. IsDrawn system.now limit worker picker.old (B.seen pass.new) ended) }
    ensures later { IsLater picker.old picker.new }
{
    loop {
        if let Some(ended) = turn(
            rt, alloc, board, pass, system, limit, finder, picker, worker, gate,
        )? {
            return Ok(ended);
        }
    }
}

/// One turn of a worker: none where it goes on.
fn turn<B: Board, F: Finder, G: Gate, R: Wait>(
    rt: &R,
    alloc: Global,
    board: &B,
    pass: &mut B::Pass,
    system: &System,
    limit: u32,
    finder: &mut F,
    picker: &mut Picker,
    worker: u32,
    gate: &G,
) -> Mem<Option<Ended>>
    requires of { B.is_of board.now pass.old }
    requires board { (system.now ≡ B.system board.now) × (limit ≡ B.limit board.now) × (worker ≡ B.worker pass.old) }
    requires system { IsSystem system.now }
    ensures of { B.is_of board.now pass.new × (B.worker pass.new ≡ B.worker pass.old) }
    ensures longer { IsLonger (B.seen pass.old) (B.seen pass.new) }
    ensures turned { IfOk result (λ end. HasTurned system.now limit worker (B.seen pass.old) picker.old (B.seen pass.new) picker.new end) }
    ensures later { IsLater picker.old picker.new }
{
    let view = board.look(rt, alloc, pass)?;
    let version = view.version;
    if version >= limit {
        return Ok(Some(Ended::Limit));
    }
    let Some(found) = find(alloc, system, &view, finder, picker)? else {
        return Ok(Some(Ended::Quiet { version }));
    };
    drop(view);
    match commit_found(rt, alloc, board, pass, &found, worker, gate)? {
        Commit::Done { version: _ } => Ok(None),
        Commit::Again { version: _ } => Ok(None),
        Commit::Spent { limit: _ } => Ok(Some(Ended::Limit)),
        Commit::Full => {
            let Found { version, step } = found;
            Ok(Some(Ended::Full { version, step }))
        }
    }
}

/// The step that is picked at the view, none where no step is legal there.
fn find<F: Finder>(
    alloc: Global,
    system: &System,
    view: &View,
    finder: &mut F,
    picker: &mut Picker,
) -> Mem<Option<Found>>
    ensures found { IfOk result (λ found. MatchOption found (HasNoStep view.now.host system.now.rules × (picker.new ≡ picker.old))
        (λ it. (it.version ≡ view.now.version) × IsPick view.now.host system.now.rules picker.old it.step × (picker.new ≡ next_state picker.old))) }
    ensures no_memory { OnErr result (picker.new ≡ picker.old) }
{
    let candidates = finder.steps(alloc, system, view, MOST_CANDIDATES)?;
    match picker.choose(candidates) {
        Some(step) => Ok(Some(Found {
            version: view.version,
            step,
        })),
        None => Ok(None),
    }
}

/// What becomes of the step; the gate is told before and after.
pub(crate) fn commit_found<B: Board, G: Gate, R: Wait>(
    rt: &R,
    alloc: Global,
    board: &B,
    pass: &mut B::Pass,
    found: &Found,
    worker: u32,
    gate: &G,
) -> Mem<Commit>
    requires of { B.is_of board.now pass.old }
    requires found { IsFound (B.system board.now) (B.seen pass.old) found.now }
    ensures of { B.is_of board.now pass.new × (B.worker pass.new ≡ B.worker pass.old) }
    ensures committed { IfOk result (λ answer. IsCommitted (B.system board.now) (B.limit board.now) (B.worker pass.old) (B.seen pass.old) (B.seen pass.new) found.now answer) }
    ensures longer { IsLonger (B.seen pass.old) (B.seen pass.new) }
    ensures no_memory { OnErr result (pass.new ≡ pass.old) }
{
    gate.pass(worker, Moment::Found);
    let answer = board.commit(rt, alloc, pass, found)?;
    match answer {
        Commit::Done { version: _ } => gate.pass(worker, Moment::Done),
        _ => gate.pass(worker, Moment::Refused),
    }
    Ok(answer)
}
