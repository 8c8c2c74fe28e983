//! `engine` with watchers of a program's own: who is told of what, and who is left.
use bg_cond::OpenGate;
use bg_io::{MemorySink, MemorySource};
use bg_top::{NO_MEMORY, engine};
use bg_watch::{Budget, LastRule, Peak, Tally, Watcher};
use std::alloc::{AllocError, Global};
use std::process::Abort;
use std::sync::Wait;
use std::thread::Threads;

/// A counter that goes from 0 to 5, by a rule for each number.
const COUNTER: &str = "fun atomic ctrl K(x) = 0; big s = K(0); fun react r(x) = K(x) --> K(x + 1);
begin brs int n = [0:1:4]; init s; rules = [ {r(n)} ]; end";

/// What stands before the lines of the watchers, and behind them.
const STEPS: &str =
    "journal 1\nstep 0 0 0\nstep 0 1 1\nstep 0 2 2\nstep 0 3 3\nstep 0 4 4\nend\nquiet\n";

const LAST: &str = "host 6 0\nbigraph 1\nsites 0\ninner 0\nouter 0\nedges 0\nnodes 1\n5 K(5) r0\n";

/// What stands before the lines of the watchers where no step is made, and behind them.
const NO_STEP: &str = "journal 1\nend\nlimit\n";

const FIRST: &str = "host 1 0\nbigraph 1\nsites 0\ninner 0\nouter 0\nedges 0\nnodes 1\n0 K(0) r0\n";

/// How a call ended: the status, the bytes that the sink then held, and the lines of the watchers that are left.
#[derive(Drop)]
struct End {
    status: u8,
    written: Vec<u8>,
    left: Vec<u8>,
}

/// The lines of the watchers.
fn lines_of(alloc: Global, watchers: &[Box<dyn Watcher>]) -> Result<Vec<u8>, AllocError> {
    let mut lines = Vec::new(alloc);
    for watcher in watchers {
        put_line(watcher, &mut lines)?;
    }
    Ok(lines)
}

/// The line of the watcher, behind what is there.
fn put_line(watcher: &Box<dyn Watcher>, lines: &mut Vec<u8>) -> Result<(), AllocError> {
    lines.reserve(64)?;
    watcher.line(lines);
    Ok(())
}

/// How `engine` ends on the counter, with these watchers.
fn end_of<R: Threads + Wait + Sync>(
    rt: &R,
    alloc: Global,
    steps: &str,
    mut watchers: Vec<Box<dyn Watcher>>,
    failing_writes: &[u32],
) -> Result<End, AllocError> {
    let mut words = Vec::new(alloc);
    for word in ["bigengine", "run", "--steps", steps] {
        words.push(String::from_str(alloc, word)?)?;
    }
    let bytes = COUNTER.as_bytes().to_vec(alloc)?;
    let mut source = MemorySource::new(bytes, 4096, Vec::new(alloc));
    let mut sink = MemorySink::new(alloc, 4096, failing_writes.to_vec(alloc)?);
    let status = engine(
        rt,
        alloc,
        words.as_slice(),
        &mut source,
        &mut sink,
        &mut watchers,
        &OpenGate,
    );
    Ok(End {
        status,
        written: sink.held().to_vec(alloc)?,
        left: lines_of(alloc, watchers.as_slice())?,
    })
}

/// The call ended so: with that status, these three parts of a text, and these lines of the watchers that are left.
fn expect(
    rt: &impl Abort,
    end: &End,
    status: u8,
    parts: [&str; 3],
    left: &str,
) -> Result<(), AllocError> {
    if end.status == NO_MEMORY {
        return Err(AllocError);
    }
    assert!(rt; end.status == status);
    let mut rest = end.written.as_slice();
    for part in parts {
        assert!(rt; rest.starts_with(part.as_bytes()));
        rest = &rest[part.len()..];
    }
    assert!(rt; rest.is_empty());
    assert!(rt; end.left.as_slice() == left.as_bytes());
    Ok(())
}

#[test]
fn a_budget_writes_its_line_and_goes(rt: HostRuntime) -> Result<(), AllocError> {
    let alloc = rt.alloc();
    let mut watchers: Vec<Box<dyn Watcher>> = Vec::new(alloc);
    watchers.push(Box::new(alloc, Budget::new(2))?)?;
    watchers.push(Box::new(alloc, Tally::new())?)?;
    let end = end_of(&rt, alloc, "1000", watchers, &[])?;
    let lines = "watch budget 2\nwatch tally 5\n";
    expect(&rt, &end, 0, [STEPS, lines, LAST], "watch tally 5\n")
}

#[test]
fn two_budgets_go_at_one_entry(rt: HostRuntime) -> Result<(), AllocError> {
    let alloc = rt.alloc();
    let mut watchers: Vec<Box<dyn Watcher>> = Vec::new(alloc);
    watchers.push(Box::new(alloc, Budget::new(1))?)?;
    watchers.push(Box::new(alloc, Budget::new(1))?)?;
    watchers.push(Box::new(alloc, Tally::new())?)?;
    let end = end_of(&rt, alloc, "1000", watchers, &[])?;
    let lines = "watch budget 1\nwatch budget 1\nwatch tally 5\n";
    expect(&rt, &end, 0, [STEPS, lines, LAST], "watch tally 5\n")
}

#[test]
fn no_watcher_writes_no_line(rt: HostRuntime) -> Result<(), AllocError> {
    let end = end_of(&rt, rt.alloc(), "1000", Vec::new(rt.alloc()), &[])?;
    expect(&rt, &end, 0, [STEPS, "", LAST], "")
}

#[test]
fn of_no_step_all_watchers_are_told_nothing(rt: HostRuntime) -> Result<(), AllocError> {
    let alloc = rt.alloc();
    let mut watchers: Vec<Box<dyn Watcher>> = Vec::new(alloc);
    watchers.push(Box::new(alloc, Budget::new(1))?)?;
    watchers.push(Box::new(alloc, Tally::new())?)?;
    watchers.push(Box::new(alloc, LastRule::new())?)?;
    watchers.push(Box::new(alloc, Peak::new())?)?;
    let end = end_of(&rt, alloc, "0", watchers, &[])?;
    let lines = "watch budget 0\nwatch tally 0\nwatch last none\nwatch peak 0\n";
    expect(&rt, &end, 0, [NO_STEP, lines, FIRST], lines)
}

#[test]
fn where_nothing_is_written_the_watchers_are_told(rt: HostRuntime) -> Result<(), AllocError> {
    let alloc = rt.alloc();
    let mut watchers: Vec<Box<dyn Watcher>> = Vec::new(alloc);
    watchers.push(Box::new(alloc, Tally::new())?)?;
    let end = end_of(&rt, alloc, "1000", watchers, &[1])?;
    expect(&rt, &end, 4, ["", "", ""], "watch tally 5\n")
}
