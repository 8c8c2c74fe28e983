//! A worker that keeps a host of its own: it hears what came, follows it, finds, picks and commits until it comes to an end.
ghost use Rattle.std.specs.Prelude.{◌≡◌, [], IfOk, MatchOption, OnErr, OnOk};
ghost use Rattle.bg_cond.specs.Boards.{IsViewOf};
ghost use Rattle.bg_cond.specs.Drawn.{IsPick};
ghost use Rattle.bg_cond.specs.Picks.{next_state};
ghost use Rattle.bg_cond.specs.Steps.{HasNoStep};
ghost use Rattle.bg_rules.specs.Systems.{IsSystem};
ghost use Rattle.bg_seats.specs.Histories.{GrowsByOthers};
ghost use Rattle.bg_workers.specs.Following.{IsBehind};
ghost use Rattle.bg_workers.specs.Turns.{IsLater};
ghost use Rattle.bg_workers.specs.Working.{IsEnded, IsLonger, IsOwn, IsDrawn, HasTurned};

use crate::ends::Ended;
use crate::working::commit_found;
use bg_cond::{Board, Commit, Follower, Found, Gate, Picker};
use bg_lists::Mem;
use bg_rules::System;
use std::alloc::Global;
use std::sync::Wait;

/// Works until an end, as [`work`](crate::work) does, at a host that the follower keeps: it hears which entries came, follows
/// them, finds the first 4,096 legal steps there, picks one of them, commits it, and begins again. The follower stands behind
/// what the pass has seen, before and after. The ends, the gate, what is drawn and what is refused are those of `work`. It
/// hears at most `limit` + 1 times, and may wait each time and at each commit.
pub fn work_following<B: Board, F: Follower, G: Gate, R: Wait>(
    rt: &R,
    alloc: Global,
    board: &B,
    pass: &mut B::Pass,
    system: &System,
    limit: u32,
    follower: &mut F,
    picker: &mut Picker,
    worker: u32,
    gate: &G,
) -> Mem<Ended>
    requires of { B.is_of board.now pass.old }
    requires board { (system.now ≡ B.system board.now) × (limit ≡ B.limit board.now) × (worker ≡ B.worker pass.old) }
    requires stands { F.stands follower.old system.now }
    requires behind { IsBehind system.now (B.seen pass.old) (F.version follower.old) (F.host follower.old) }
    ensures of { B.is_of board.now pass.new × (B.worker pass.new ≡ B.worker pass.old) }
    ensures longer { IsLonger (B.seen pass.old) (B.seen pass.new) }
    ensures stands { F.stands follower.new system.now }
    ensures behind { IsBehind system.now (B.seen pass.new) (F.version follower.new) (F.host follower.new) }
    ensures ended { IfOk result (λ ended. IsEnded system.now limit (B.seen pass.new) ended) }
    ensures drawn { B.seen pass.old ≡ [] → IsOwn worker (B.seen pass.new) → IfOk result (λ ended. IsDrawn system.now limit worker picker.old (B.seen pass.new) ended) }
    ensures later { IsLater picker.old picker.new }
{
    let _signature = system.signature();
    follow_on(
        rt, alloc, board, pass, system, limit, follower, picker, worker, gate,
    )
}

/// The turns of a worker, up to the last.
fn follow_on<B: Board, F: Follower, G: Gate, R: Wait>(
    rt: &R,
    alloc: Global,
    board: &B,
    pass: &mut B::Pass,
    system: &System,
    limit: u32,
    follower: &mut F,
    picker: &mut Picker,
    worker: u32,
    gate: &G,
) -> Mem<Ended>
    requires of { B.is_of board.now pass.old }
    requires board { (system.now ≡ B.system board.now) × (limit ≡ B.limit board.now) × (worker ≡ B.worker pass.old) }
    requires system { IsSystem system.now }
    requires stands { F.stands follower.old system.now }
    requires behind { IsBehind system.now (B.seen pass.old) (F.version follower.old) (F.host follower.old) }
    ensures of { B.is_of board.now pass.new × (B.worker pass.new ≡ B.worker pass.old) }
    ensures longer { IsLonger (B.seen pass.old) (B.seen pass.new) }
    ensures stands { F.stands follower.new system.now }
    ensures behind { IsBehind system.now (B.seen pass.new) (F.version follower.new) (F.host follower.new) }
    ensures ended { IfOk result (λ ended. IsEnded system.now limit (B.seen pass.new) ended) }
    ensures drawn { B.seen pass.old ≡ [] → IsOwn worker (B.seen pass.new) → IfOk result (λ ended. IsDrawn system.now limit worker picker.old (B.seen pass.new) ended) }
    ensures later { IsLater picker.old picker.new }
{
    loop {
        if let Some(ended) = follow_turn(
            rt, alloc, board, pass, system, limit, follower, picker, worker, gate,
        )? {
            return Ok(ended);
        }
    }
}

/// One turn of a worker: none where it goes on.
fn follow_turn<B: Board, F: Follower, G: Gate, R: Wait>(
    rt: &R,
    alloc: Global,
    board: &B,
    pass: &mut B::Pass,
    system: &System,
    limit: u32,
    follower: &mut F,
    picker: &mut Picker,
    worker: u32,
    gate: &G,
) -> Mem<Option<Ended>>
    requires of { B.is_of board.now pass.old }
    requires board { (system.now ≡ B.system board.now) × (limit ≡ B.limit board.now) × (worker ≡ B.worker pass.old) }
    requires system { IsSystem system.now }
    requires stands { F.stands follower.old system.now }
    requires behind { IsBehind system.now (B.seen pass.old) (F.version follower.old) (F.host follower.old) }
    ensures of { B.is_of board.now pass.new × (B.worker pass.new ≡ B.worker pass.old) }
    ensures longer { IsLonger (B.seen pass.old) (B.seen pass.new) }
    ensures stands { F.stands follower.new system.now }
    ensures behind { IsBehind system.now (B.seen pass.new) (F.version follower.new) (F.host follower.new) }
    ensures turned { IfOk result (λ end. HasTurned system.now limit worker (B.seen pass.old) picker.old (B.seen pass.new) picker.new end) }
    ensures later { IsLater picker.old picker.new }
{
    catch_up(rt, alloc, board, pass, system, limit, follower)?;
    let version = follower.version();
    if version >= limit {
        return Ok(Some(Ended::Limit));
    }
    let Some(found) = find_ahead(alloc, system, follower, picker)? else {
        return Ok(Some(Ended::Quiet { version }));
    };
    match commit_found(rt, alloc, board, pass, &found, worker, gate)? {
        Commit::Done { version: _ } => Ok(None),
        Commit::Again { version: _ } => Ok(None),
        Commit::Spent { limit: _ } => Ok(Some(Ended::Limit)),
        Commit::Full => {
            let Found { version, step } = found;
            Ok(Some(Ended::Full { version, step }))
        }
    }
}

/// Hears what came, and follows it: the follower's host is then the one after all that the pass has seen.
fn catch_up<B: Board, F: Follower, R: Wait>(
    rt: &R,
    alloc: Global,
    board: &B,
    pass: &mut B::Pass,
    system: &System,
    limit: u32,
    follower: &mut F,
) -> Mem<()>
    requires of { B.is_of board.now pass.old }
    requires board { (system.now ≡ B.system board.now) × (limit ≡ B.limit board.now) }
    requires system { IsSystem system.now }
    requires stands { F.stands follower.old system.now }
    requires behind { IsBehind system.now (B.seen pass.old) (F.version follower.old) (F.host follower.old) }
    ensures of { B.is_of board.now pass.new × (B.worker pass.new ≡ B.worker pass.old) }
    ensures grows { GrowsByOthers (B.worker pass.old) (B.seen pass.old) (B.seen pass.new) }
    ensures stands { F.stands follower.new system.now }
    ensures behind { IsBehind system.now (B.seen pass.new) (F.version follower.new) (F.host follower.new) }
    ensures shows { OnOk result (IsViewOf (B.system board.now) (B.limit board.now) (B.seen pass.new) (record { version = F.version follower.new; host = F.host follower.new })) }
{
    let entries = board.news(rt, alloc, pass, follower.version())?;
    follower.follow(alloc, system, &entries)?;
    Ok(())
}

/// The step that is picked at the follower's host, none where no step is legal there.
fn find_ahead<F: Follower>(
    alloc: Global,
    system: &System,
    follower: &mut F,
    picker: &mut Picker,
) -> Mem<Option<Found>>
    requires stands { F.stands follower.old system.now }
    ensures stands { F.stands follower.new system.now }
    ensures same { (F.version follower.new ≡ F.version follower.old) × (F.host follower.new ≡ F.host follower.old) }
    ensures found { IfOk result (λ found. MatchOption found (HasNoStep (F.host follower.old) system.now.rules × (picker.new ≡ picker.old))
        (λ it. (it.version ≡ F.version follower.old) × IsPick (F.host follower.old) system.now.rules picker.old it.step × (picker.new ≡ next_state picker.old))) }
    ensures no_memory { OnErr result (picker.new ≡ picker.old) }
{
    match follower.pick(alloc, system, picker)? {
        Some(step) => Ok(Some(Found {
            version: follower.version(),
            step,
        })),
        None => Ok(None),
    }
}
