//! Hosts that two passes share, on one thread.
ghost use Rattle.std.specs.Prelude.{◌≡◌, ◌≤◌, IfOk, IfSome, OnOk};
ghost use Rattle.bg_base.specs.Limits.{most_steps};
ghost use Rattle.bg_cond.specs.Boards.{IsViewOf, IsFound};
ghost use Rattle.bg_cond.specs.Steps.{IsLegal};
ghost use Rattle.bg_shared.specs.Shared.{OfTable};

use crate::models::{Model, step_of, system_of};
use bg_base::{Entry, Journal};
use bg_cond::{Closed, Commit, Found, HostName, Verdict, View, judge};
use bg_lists::Mem;
use bg_rules::System;
use bg_seats::Pass;
use bg_shared::{HostParts, SharedHost};
use std::alloc::Global;
use std::marker::Brand;
use std::process::Abort;
use std::sync::Wait;

/// The step of the rule at the nodes, where it is legal at the view.
fn legal_at(
    alloc: Global,
    system: &System,
    view: &View,
    rule: u32,
    nodes: &[u32],
) -> Mem<Option<Found>>
    ensures { IfOk result (λ found. IfSome found (λ it. (it.version ≡ view.now.version) × IsLegal view.now.host system.now.rules it.step)) }
{
    let step = step_of(alloc, rule, nodes)?;
    match judge(alloc, &view.host, system, &step)? {
        Verdict::Legal => Ok(Some(Found {
            version: view.version,
            step,
        })),
        _ => Ok(None),
    }
}

/// The pass looks, and finds that step if it is legal.
fn found_by<N: HostName, R: Wait>(
    rt: &R,
    alloc: Global,
    host: &SharedHost<N>,
    pass: &mut Pass,
    rule: u32,
    nodes: &[u32],
) -> Mem<Option<Found>>
    requires { pass.old.table ≡ N.table }
    ensures table { pass.new.table ≡ N.table }
    ensures found { IfOk result (λ found. IfSome found (λ it. IsFound N.system pass.new.seen it)) }
{
    let view = host.look(rt, alloc, pass)?;
    let found = legal_at(alloc, host.system(), &view, rule, nodes)?;
    Ok(found)
}

/// The pass looks and commits that step; nothing where it is not legal.
fn committed_by<N: HostName, R: Wait>(
    rt: &R,
    alloc: Global,
    host: &SharedHost<N>,
    pass: &mut Pass,
    rule: u32,
    nodes: &[u32],
) -> Mem<Option<Commit>>
    requires { pass.old.table ≡ N.table }
    ensures { pass.new.table ≡ N.table }
{
    let Some(found) = found_by(rt, alloc, host, pass, rule, nodes)? else {
        return Ok(None);
    };
    let answer = host.commit(rt, alloc, pass, &found)?;
    Ok(Some(answer))
}

/// The version that the pass sees.
fn version_by<N: HostName, R: Wait>(
    rt: &R,
    alloc: Global,
    host: &SharedHost<N>,
    pass: &mut Pass,
) -> Mem<u32>
    requires { pass.old.table ≡ N.table }
    ensures { pass.new.table ≡ N.table }
{
    let view = host.look(rt, alloc, pass)?;
    Ok(view.version)
}

/// What the passes of workers 0 and 1 are answered: both find a step at version 0, the first commits, the second commits,
/// and then the second looks, finds and commits again. The last is the version that the first then sees.
#[derive(Clone, Copy)]
struct Answers {
    first: Commit,
    late: Commit,
    again: Option<Commit>,
    version: u32,
}

/// What two passes are answered, and the journal that is left of their host.
#[derive(Drop)]
struct Met {
    answers: Answers,
    journal: Journal,
}

/// Both find a step, and then both commit; nothing where a step is not legal.
fn both_committed<N: HostName, R: Wait>(
    rt: &R,
    alloc: Global,
    host: &SharedHost<N>,
    zero: &mut Pass,
    one: &mut Pass,
) -> Mem<Option<(Commit, Commit)>>
    requires tables { (zero.old.table ≡ N.table) × (one.old.table ≡ N.table) }
    ensures tables { (zero.new.table ≡ N.table) × (one.new.table ≡ N.table) }
{
    let Some(found) = found_by(rt, alloc, host, zero, 0, &[4, 1])? else {
        return Ok(None);
    };
    let Some(late) = found_by(rt, alloc, host, one, 0, &[5, 1])? else {
        return Ok(None);
    };
    let first = host.commit(rt, alloc, zero, &found)?;
    let second = host.commit(rt, alloc, one, &late)?;
    Ok(Some((first, second)))
}

/// What the passes are answered.
fn answers_to<N: HostName, R: Wait>(
    rt: &R,
    alloc: Global,
    host: &SharedHost<N>,
    zero: &mut Pass,
    one: &mut Pass,
) -> Mem<Option<Answers>>
    requires tables { (zero.old.table ≡ N.table) × (one.old.table ≡ N.table) }
    ensures tables { (zero.new.table ≡ N.table) × (one.new.table ≡ N.table) }
{
    let Some((first, late)) = both_committed(rt, alloc, host, zero, one)? else {
        return Ok(None);
    };
    let again = committed_by(rt, alloc, host, one, 0, &[5, 2])?;
    let version = version_by(rt, alloc, host, zero)?;
    Ok(Some(Answers {
        first,
        late,
        again,
        version,
    }))
}

/// The passes of workers 0 and 1 on a host, and then its close.
fn two_meet<N: HostName, R: Wait>(rt: &R, alloc: Global, parts: HostParts) -> Mem<Option<Met>>
    requires { (N.table ≡ parts.table) × (N.system ≡ parts.system) × (N.limit ≡ parts.limit) × (N.passes ≡ parts.passes) × (parts.passes ≡ 2) }
{
    let (host, passes) = SharedHost::<N>::start(parts);
    close_after(rt, alloc, host, passes)
}

/// The first two of these passes on the host, and then its close with them.
fn close_after<N: HostName, R: Wait>(
    rt: &R,
    alloc: Global,
    host: SharedHost<N>,
    mut passes: Vec<Pass>,
) -> Mem<Option<Met>>
    requires { OfTable N.table passes.items }
{
    let Some(mut one) = passes.pop() else {
        return Ok(None);
    };
    let Some(mut zero) = passes.pop() else {
        return Ok(None);
    };
    let Some(answers) = answers_to(rt, alloc, &host, &mut zero, &mut one)? else {
        return Ok(None);
    };
    passes.push(zero)?;
    passes.push(one)?;
    let journal = journal_of(host.close(passes)?);
    Ok(Some(Met { answers, journal }))
}

/// The journal alone.
fn journal_of(closed: Closed) -> Journal {
    closed.journal
}

/// Two passes on the building, on which so many entries may be.
fn meeting_at<R: Abort + Wait>(rt: &R, alloc: Global, limit: u32) -> Mem<Option<Met>>
    requires { limit ≤ most_steps }
{
    let system = system_of(rt, alloc, Model::Building.text())?;
    let parts = HostParts::new(alloc, system, limit, 2)?;
    two_meet::<Brand, R>(rt, alloc, parts)
}

/// The entry is that one.
fn is_entry(entry: &Entry, worker: u32, rule: u32, nodes: &[u32]) -> bool {
    entry.worker == worker && entry.rule == rule && entry.map.as_slice() == nodes
}

/// Both entries were committed, the second when it was found once more.
fn are_two(met: &Option<Met>) -> bool {
    let Some(Met { answers, journal }) = met else {
        return false;
    };
    let entries = journal.as_slice();
    answers.first == Commit::Done { version: 1 }
        && answers.late == Commit::Again { version: 1 }
        && answers.again == Some(Commit::Done { version: 2 })
        && answers.version == 2
        && entries.len() == 2
        && is_entry(&entries[0], 0, 0, &[4, 1])
        && is_entry(&entries[1], 1, 0, &[5, 2])
}

#[test]
fn of_two_steps_that_were_found_at_one_version_one_is_committed(rt: HostRuntime) -> Mem<()> {
    let met = meeting_at(&rt, rt.alloc(), 10)?;
    assert!(rt; are_two(&met));
    Ok(())
}

/// One entry was committed, and there is no room for another.
fn is_one(met: &Option<Met>) -> bool {
    let Some(Met { answers, journal }) = met else {
        return false;
    };
    answers.again == Some(Commit::Spent { limit: 1 }) && answers.version == 1 && journal.len() == 1
}

#[test]
fn a_step_past_the_limit_is_spent(rt: HostRuntime) -> Mem<()> {
    let met = meeting_at(&rt, rt.alloc(), 1)?;
    assert!(rt; is_one(&met));
    Ok(())
}

/// The number that the next node of the host gets.
fn next_node_by<N: HostName, R: Wait>(
    rt: &R,
    alloc: Global,
    host: &SharedHost<N>,
    pass: &mut Pass,
) -> Mem<u32>
    requires { pass.old.table ≡ N.table }
    ensures { pass.new.table ≡ N.table }
{
    Ok(host.look(rt, alloc, pass)?.host.next_node())
}

/// What the last pass is answered at last, when it doubles the host so many times and once more. The other passes are
/// dropped, and never joined.
fn doubled<N: HostName, R: Wait>(
    rt: &R,
    alloc: Global,
    parts: HostParts,
    times: u32,
) -> Mem<Option<Commit>>
    requires { (N.table ≡ parts.table) × (N.system ≡ parts.system) × (N.limit ≡ parts.limit) × (N.passes ≡ parts.passes) }
{
    let (host, passes) = SharedHost::<N>::start(parts);
    doubled_by_last(rt, alloc, &host, passes, times)
}

/// What the last of these passes is answered.
fn doubled_by_last<N: HostName, R: Wait>(
    rt: &R,
    alloc: Global,
    host: &SharedHost<N>,
    mut passes: Vec<Pass>,
    times: u32,
) -> Mem<Option<Commit>>
    requires { OfTable N.table passes.items }
{
    let Some(mut last) = passes.pop() else {
        return Ok(None);
    };
    drop(passes);
    let mut copy = 0;
    for _ in 0..times {
        let next = next_node_by(rt, alloc, host, &mut last)?;
        let _ = committed_by(rt, alloc, host, &mut last, 0, &[copy])?;
        copy = next;
    }
    committed_by(rt, alloc, host, &mut last, 0, &[copy])
}

/// So many commits on the host that doubles, with so many passes, of which one is used.
fn doubling<R: Abort + Wait>(
    rt: &R,
    alloc: Global,
    limit: u32,
    passes: u32,
    times: u32,
) -> Mem<Option<Commit>>
    requires limit { limit ≤ most_steps }
    requires passes { (1 ≤ passes) × (passes ≤ 64) }
{
    let system = system_of(rt, alloc, Model::Copies.text())?;
    let parts = HostParts::new(alloc, system, limit, passes)?;
    doubled::<Brand, R>(rt, alloc, parts, times)
}

#[test]
fn a_step_whose_result_passes_a_limit_is_full(rt: HostRuntime) -> Mem<()> {
    assert!(rt; doubling(&rt, rt.alloc(), 100, 64, 15)? == Some(Commit::Full));
    Ok(())
}

#[test]
fn on_a_host_without_room_each_step_is_spent(rt: HostRuntime) -> Mem<()> {
    assert!(rt; doubling(&rt, rt.alloc(), 0, 1, 0)? == Some(Commit::Spent { limit: 0 }));
    Ok(())
}
