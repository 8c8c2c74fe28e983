//! Workers that run at once.
ghost use Rattle.std.specs.Prelude.{◌≡◌, All};
ghost use Rattle.bg_workers.specs.Following.{IsStanding, AllRunFollowing, as_member};
ghost use Rattle.bg_workers.specs.Members.{IsReady, HasRun, AllRun};

use crate::ends::{FollowMember, Member};
use crate::following::work_following;
use crate::working::work;
use bg_cond::{Board, Finder, Follower, Gate};
use bg_rules::System;
use std::alloc::Global;
use std::sync::Wait;
use std::thread;
use std::thread::Threads;

/// Runs all members at once, each on a thread of its own where one can be made, and else one after another. Each then holds
/// how it ended: as [`work`] says of it. It cannot be refused; a member that had no memory holds that.
pub fn run_workers<B: Board + Sync, F: Finder + Send, G: Gate + Sync, R: Threads + Wait + Sync>(
    rt: &R,
    alloc: Global,
    board: &B,
    members: &mut [Member<B::Pass, F>],
    system: &System,
    limit: u32,
    gate: &G,
)
where
    B::Pass: Send,
    requires board { (system.now ≡ B.system board.now) × (limit ≡ B.limit board.now) }
    requires members { All (IsReady (B.is_of board.now) B.worker) members.old }
    ensures { AllRun (B.is_of board.now) B.worker B.seen system.now limit members.old members.new }
{
    let threads = members.len().max(1);
    thread::for_each_mut(
        rt,
        members,
        threads,
        &|_, member: &mut Member<B::Pass, F>|
            requires { (system.now ≡ B.system board.now) × (limit ≡ B.limit board.now) × IsReady (B.is_of board.now) B.worker member.old }
            ensures { HasRun (B.is_of board.entry.now) B.worker B.seen system.entry.now limit member.old member.new }
        { run_member(rt, alloc, board, member, system, limit, gate) },
    );
}

/// Runs the member to its end.
fn run_member<B: Board, F: Finder, G: Gate, R: Wait>(
    rt: &R,
    alloc: Global,
    board: &B,
    member: &mut Member<B::Pass, F>,
    system: &System,
    limit: u32,
    gate: &G,
)
    requires board { (system.now ≡ B.system board.now) × (limit ≡ B.limit board.now) }
    requires member { IsReady (B.is_of board.now) B.worker member.old }
    ensures { HasRun (B.is_of board.now) B.worker B.seen system.now limit member.old member.new }
{
    let ended = work(
        rt,
        alloc,
        board,
        &mut member.pass,
        system,
        limit,
        &mut member.finder,
        &mut member.picker,
        member.worker,
        gate,
    );
    member.ended = Some(ended);
}

/// Runs all members at once, as [`run_workers`] does, each at the host of its follower: as [`work_following`] says of it. Each
/// follower then stands for the host after some of what its pass has seen.
pub fn run_following<B: Board + Sync, F: Follower + Send, G: Gate + Sync, R: Threads + Wait + Sync>(
    rt: &R,
    alloc: Global,
    board: &B,
    members: &mut [FollowMember<B::Pass, F>],
    system: &System,
    limit: u32,
    gate: &G,
)
where
    B::Pass: Send,
    requires board { (system.now ≡ B.system board.now) × (limit ≡ B.limit board.now) }
    requires members { All (λ member. IsReady (B.is_of board.now) B.worker (as_member member)) members.old }
    requires followers { All (IsStanding F.stands F.version F.host B.seen system.now) members.old }
    ensures { AllRunFollowing (B.is_of board.now) B.worker F.stands F.version F.host B.seen system.now limit members.old members.new }
{
    let threads = members.len().max(1);
    thread::for_each_mut(
        rt,
        members,
        threads,
        &|_, member: &mut FollowMember<B::Pass, F>|
            requires { (system.now ≡ B.system board.now) × (limit ≡ B.limit board.now) × IsReady (B.is_of board.now) B.worker (as_member member.old)
                × IsStanding F.stands F.version F.host B.seen system.now member.old }
            ensures { HasRun (B.is_of board.entry.now) B.worker B.seen system.entry.now limit (as_member member.old) (as_member member.new)
                × IsStanding F.stands F.version F.host B.seen system.entry.now member.new }
        { run_follower(rt, alloc, board, member, system, limit, gate) },
    );
}

/// Runs the member to its end.
fn run_follower<B: Board, F: Follower, G: Gate, R: Wait>(
    rt: &R,
    alloc: Global,
    board: &B,
    member: &mut FollowMember<B::Pass, F>,
    system: &System,
    limit: u32,
    gate: &G,
)
    requires board { (system.now ≡ B.system board.now) × (limit ≡ B.limit board.now) }
    requires member { IsReady (B.is_of board.now) B.worker (as_member member.old) }
    requires follower { IsStanding F.stands F.version F.host B.seen system.now member.old }
    ensures run { HasRun (B.is_of board.now) B.worker B.seen system.now limit (as_member member.old) (as_member member.new) }
    ensures standing { IsStanding F.stands F.version F.host B.seen system.now member.new }
{
    let answer = work_following(
        rt,
        alloc,
        board,
        &mut member.pass,
        system,
        limit,
        &mut member.follower,
        &mut member.picker,
        member.worker,
        gate,
    );
    member.ended = Some(answer);
}
