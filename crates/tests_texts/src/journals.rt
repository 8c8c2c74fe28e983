use bg_journal::{JournalFault, read_journal};
use bg_lists::{Mem, OutOfMemory};
use std::alloc::Global;

/// How many bytes of the text are a journal, or the line at which it is bad; line 0 where it is too long for a test.
fn answer(alloc: Global, text: &[u8]) -> Mem<Result<u32, u32>> {
    if text.len() > 10_000_000 {
        return Ok(Err(0));
    }
    match read_journal(alloc, text) {
        Ok((_, used)) => Ok(Ok(used)),
        Err(JournalFault::Bad { line }) => Ok(Err(line)),
        Err(JournalFault::OutOfMemory) => Err(OutOfMemory),
    }
}

/// Texts, and the length of the journal that they begin with, or the line at which they are bad.
const TEXTS: [(&str, Result<u32, u32>); 32] = [
    ("", Err(1)),
    ("journal 1", Err(1)),
    (" journal 1\nend\n", Err(1)),
    ("journal 2\nend\n", Err(1)),
    ("journal 1\r\nend\r\n", Err(1)),
    ("journal 1\n", Err(2)),
    ("journal 1\nend", Err(2)),
    ("journal 1\n\nend\n", Err(2)),
    ("journal 1\nend \n", Err(2)),
    ("journal 1\nend\n", Ok(14)),
    ("journal 1\nend\nctrl A = 0;", Ok(14)),
    ("journal 1\nend\nstep 0 0 4 1\nend\n", Ok(14)),
    ("journal 1\nstep 0 0 4 1\nend\n", Ok(27)),
    ("journal 1\nstep 0 0 4 1\nstep 0 0 5 2\nend\n", Ok(40)),
    ("journal 1\nstep 0 0 4 1\n", Err(3)),
    ("journal 1\nstep 0 0 4 1", Err(2)),
    ("journal 1\nstep 0 0 4 1\nend\r\n", Err(3)),
    ("journal 1\nstep 0 0 4 1\r\nend\n", Err(2)),
    ("journal 1\nstep 0 0 4 1\nstep 0 0 5 2 \nend\n", Err(3)),
    ("journal 1\nstep 0 0 04 1\nend\n", Err(2)),
    ("journal 1\nstep 00 0 4 1\nend\n", Err(2)),
    ("journal 1\nstep 0 0\nend\n", Err(2)),
    ("journal 1\nstep 0 0 \nend\n", Err(2)),
    ("journal 1\nstep 0 0  4\nend\n", Err(2)),
    ("journal 1\nstep 0 0\t4\nend\n", Err(2)),
    ("journal 1\nstep 0 0 -4\nend\n", Err(2)),
    ("journal 1\nstep 0 0 2147483647\nend\n", Ok(34)),
    ("journal 1\nstep 0 0 2147483648\nend\n", Err(2)),
    ("journal 1\nstep 0 2147483647 0\nend\n", Ok(34)),
    ("journal 1\nstep 0 2147483648 0\nend\n", Err(2)),
    ("journal 1\nstep 2147483647 0 0\nend\n", Ok(34)),
    ("journal 1\nstep 2147483648 0 0\nend\n", Err(2)),
];

#[test]
fn reads_journals_or_tells_the_bad_line(rt: HostRuntime) -> Mem<()> {
    for &(text, told) in TEXTS.iter() {
        assert!(rt; answer(rt.alloc(), text.as_bytes())? == told, "{text}");
    }
    Ok(())
}

/// A journal with a step of so many numbers.
fn one_step(alloc: Global, numbers: u32) -> Mem<Vec<u8>> {
    let mut text = Vec::new(alloc);
    text.extend_from_slice(b"journal 1\nstep 0 0")?;
    for _ in 0..numbers {
        text.extend_from_slice(b" 0")?;
    }
    text.extend_from_slice(b"\nend\n")?;
    Ok(text)
}

/// Numbers of numbers, and what is told.
const MAPS: [(u32, Result<u32, u32>); 2] = [(65_536, Ok(131_095)), (65_537, Err(2))];

#[test]
fn reads_maps_of_up_to_65536_numbers(rt: HostRuntime) -> Mem<()> {
    for &(numbers, told) in MAPS.iter() {
        let text = one_step(rt.alloc(), numbers)?;
        assert!(rt; answer(rt.alloc(), text.as_slice())? == told, "{numbers}");
    }
    Ok(())
}

/// So many steps, and what stands behind them.
fn many_steps(alloc: Global, steps: u32, behind: &str) -> Mem<Vec<u8>> {
    let mut text = Vec::new(alloc);
    text.extend_from_slice(b"journal 1\n")?;
    for _ in 0..steps {
        text.extend_from_slice(b"step 0 0 0\n")?;
    }
    text.extend_from_slice(behind.as_bytes())?;
    Ok(text)
}

/// Numbers of steps, what stands behind them, and what is told.
const LONG: [(u32, &str, Result<u32, u32>); 5] = [
    (99_999, "step 0 0 0\nend\n", Ok(1_100_014)),
    (100_000, "end\n", Ok(1_100_014)),
    (100_000, "end", Err(100_002)),
    (100_000, "", Err(100_002)),
    (100_000, "step 0 0 0\nend\n", Err(100_002)),
];

#[test]
fn reads_up_to_100000_steps(rt: HostRuntime) -> Mem<()> {
    for &(steps, behind, told) in LONG.iter() {
        let text = many_steps(rt.alloc(), steps, behind)?;
        assert!(rt;
            answer(rt.alloc(), text.as_slice())? == told,
            "{steps} {behind}"
        );
    }
    Ok(())
}

/// Whether the text begins with a journal whose first step has this worker, rule and map.
fn begins_with_step(
    alloc: Global,
    text: &[u8],
    worker: u32,
    rule: u32,
    map: &[u32],
) -> Result<bool, JournalFault> {
    if text.len() > 1_000 {
        return Ok(false);
    }
    let (journal, _) = read_journal(alloc, text)?;
    match journal.as_slice().first() {
        Some(step) => {
            Ok(step.worker == worker && step.rule == rule && step.map.as_slice() == map)
        }
        None => Ok(false),
    }
}

#[test]
fn reads_worker_rule_and_map(rt: HostRuntime) -> Result<(), JournalFault> {
    let text = b"journal 1\nstep 3 7 4 10 1\nend\n";
    assert!(rt; begins_with_step(rt.alloc(), text.as_slice(), 3, 7, [4, 10, 1].as_slice())?);
    Ok(())
}
