//! Teams of workers, one for each pass of a shared host.
ghost use Rattle.std.specs.Prelude.{◌≡◌, ◌<◌, All, length, map, Some, Ok, IfOk, OnOk};
ghost use Rattle.std.specs.List.{AllByRecursion};
ghost use Rattle.bg_runs.specs.Teams.{HasEnd, HaveEnds, HaveEnded, IsMember, IsParted, IsTeam, StandsFirst, member_pass};
ghost use Rattle.bg_seats.specs.Histories.{PassView};
ghost use Rattle.bg_shared.specs.Shared.{OfTable};
ghost use Rattle.bg_workers.specs.Following.{AllRunFollowing, IsStanding, as_member};
ghost use Rattle.bg_workers.specs.Members.{IsReady};

use bg_cond::{Follower, Gate, HostName};
use bg_incr::KeptFinder;
use bg_lists::{Mem, OutOfMemory};
use bg_rules::System;
use bg_seats::{Pass, worker};
use bg_shared::SharedHost;
use bg_workers::{Ended, FollowMember, Picker, run_following};
use std::alloc::Global;
use std::sync::Wait;
use std::thread::Threads;

/// A worker of a team.
pub(crate) type Worker = FollowMember<Pass, KeptFinder>;

/// A worker for each pass, which stands at the system's first host; the generator of each is made by the seed and its number.
fn team_of(alloc: Global, passes: Vec<Pass>, seed: u64, system: &System) -> Mem<Vec<Worker>>
    ensures team { IfOk result (λ members. IsTeam seed passes.items members.items) }
    ensures standing { IfOk result (λ members. AllByRecursion (StandsFirst system.now) members.items) }
{
    let mut members = Vec::new(alloc);
    for pass in passes {
        members.push(member_of(alloc, pass, seed, system)?)?;
    }
    Ok(members)
}

/// The worker with that pass, which stands at the system's first host.
fn member_of(alloc: Global, pass: Pass, seed: u64, system: &System) -> Mem<Worker>
    ensures member { IfOk result (λ member. IsMember seed pass member) }
    ensures standing { IfOk result (λ member. StandsFirst system.now member) }
{
    let number = worker(&pass);
    let follower = KeptFinder::at(alloc, 0, system.init())?;
    Ok(FollowMember {
        pass,
        follower,
        picker: Picker::new(seed, number),
        worker: number,
        ended: None,
    })
}

/// A team with these passes, after all its members have run.
pub(crate) fn run_team<N: HostName + Send + Sync, G: Gate + Sync, R: Threads + Wait + Sync>(
    rt: &R,
    alloc: Global,
    host: &SharedHost<N>,
    passes: Vec<Pass>,
    limit: u32,
    seed: u64,
    gate: &G,
) -> Mem<Vec<Worker>>
    requires limit { limit ≡ N.limit }
    requires passes { OfTable N.table passes.items }
    ensures { IfOk result (λ members. HaveEnded N.table N.system limit seed passes.items members.items) }
{
    let members = team_of(alloc, passes, seed, host.system())?;
    let members = run_members(rt, alloc, host, members, limit, gate);
    Ok(members)
}

/// The members, after all have run.
fn run_members<N: HostName + Send + Sync, G: Gate + Sync, R: Threads + Wait + Sync>(
    rt: &R,
    alloc: Global,
    host: &SharedHost<N>,
    mut members: Vec<Worker>,
    limit: u32,
    gate: &G,
) -> Vec<Worker>
    requires limit { limit ≡ N.limit }
    requires members { All (λ member. IsReady (λ (pass : PassView). pass.table ≡ N.table) (λ (pass : PassView). pass.worker) (as_member member)) members.items }
    requires standing { All (IsStanding ⟦<KeptFinder as Follower>⟧.stands ⟦<KeptFinder as Follower>⟧.version ⟦<KeptFinder as Follower>⟧.host (λ (pass : PassView). pass.seen) N.system) members.items }
    ensures { AllRunFollowing (λ (pass : PassView). pass.table ≡ N.table) (λ (pass : PassView). pass.worker)
        ⟦<KeptFinder as Follower>⟧.stands ⟦<KeptFinder as Follower>⟧.version ⟦<KeptFinder as Follower>⟧.host (λ (pass : PassView). pass.seen) N.system limit members.items result.items }
{
    run_following(
        rt,
        alloc,
        host,
        members.as_mut_slice(),
        host.system(),
        limit,
        gate,
    );
    members
}

/// What is left of members that have run: the passes, that of the first one last, and the generator and the end of the first
/// one. It refuses where one of them had no memory.
pub(crate) fn parted(alloc: Global, mut members: Vec<Worker>) -> Mem<(Vec<Pass>, Picker, Ended)>
    requires { 0 < length members.items }
    ensures { IfOk result (λ left. IsParted members.items left.0.items left.2) }
{
    let FollowMember {
        pass,
        follower: _,
        picker,
        worker: _,
        ended,
    } = members.remove(0);
    let ended = end_of(ended)?;
    let mut passes = passes_of(alloc, members)?;
    passes.push(pass)?;
    Ok((passes, picker, ended))
}

/// The passes of all members; it refuses where one of them had no memory.
fn passes_of(alloc: Global, members: Vec<Worker>) -> Mem<Vec<Pass>>
    ensures passes { IfOk result (λ passes. passes.items ≡ map member_pass members.items) }
    ensures ended { OnOk result (HaveEnds members.items) }
{
    let mut passes = Vec::new(alloc);
    for member in members {
        passes.push(pass_of_ended(member)?)?;
    }
    Ok(passes)
}

/// The pass of the member; it refuses where the member had no memory.
fn pass_of_ended(member: Worker) -> Mem<Pass>
    ensures pass { IfOk result (λ pass. pass ≡ member.pass) }
    ensures ended { OnOk result (HasEnd member) }
{
    let FollowMember {
        pass,
        follower: _,
        picker: _,
        worker: _,
        ended,
    } = member;
    end_of(ended)?;
    Ok(pass)
}

/// How a member ended; it refuses where the member had no memory.
fn end_of(ended: Option<Mem<Ended>>) -> Mem<Ended>
    ensures { IfOk result (λ end. ended ≡ Some (Ok end)) }
{
    match ended {
        Some(answer) => answer,
        None => Err(OutOfMemory),
    }
}
