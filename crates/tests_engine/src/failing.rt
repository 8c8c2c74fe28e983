//! `engine` on the building, where each read, each write and the flush fail in turn, and where several workers run.
use crate::runs::{BUILDING, ENTRANCES, End, words_of};
use bg_cond::OpenGate;
use bg_io::{MemorySink, MemorySource};
use bg_top::{NO_MEMORY, engine};
use std::alloc::{AllocError, Global};
use std::process::Abort;
use std::sync::Wait;
use std::thread::Threads;

/// How the run of the building begins.
const JOURNAL: &str = "journal 1\n";

/// Words, and the read and the write that fail, each counted from 1; none does where it is 0.
#[derive(Clone, Copy)]
struct Call<'a> {
    words: &'a [&'a str],
    failing_read: u32,
    failing_write: u32,
}

/// The model, as the result of a function: what is proved of its callers does not go through its bytes.
fn building() -> &'static str {
    BUILDING
}

/// The text of `match` of the model.
fn entrances() -> &'static str {
    ENTRANCES
}

/// How `engine` ends on the building, of which a read gives eight bytes, with a sink that takes one byte a write.
fn end_of<R: Threads + Wait + Sync>(rt: &R, alloc: Global, call: Call) -> Result<End, AllocError> {
    let words = words_of(alloc, call.words)?;
    let bytes = building().as_bytes().to_vec(alloc)?;
    let mut source = MemorySource::new(bytes, 8, [call.failing_read].to_vec(alloc)?);
    let mut sink = MemorySink::new(alloc, 1, [call.failing_write].to_vec(alloc)?);
    let mut watchers = Vec::new(alloc);
    let status = engine(
        rt,
        alloc,
        words.as_slice(),
        &mut source,
        &mut sink,
        &mut watchers,
        &OpenGate,
    );
    Ok(End {
        status,
        written: sink.held().to_vec(alloc)?,
    })
}

/// The call ended with that status, and the sink holds that text. Want of memory is passed on.
fn expect(rt: &impl Abort, end: &End, status: u8, text: &[u8]) -> Result<(), AllocError> {
    if end.status == NO_MEMORY {
        return Err(AllocError);
    }
    assert!(rt; end.status == status);
    assert!(rt; end.written.as_slice() == text);
    Ok(())
}

/// The read fails, and nothing is written.
fn try_read<R: Abort + Threads + Wait + Sync>(
    rt: &R,
    alloc: Global,
    words: &[&str],
    read: u32,
) -> Result<(), AllocError> {
    let call = Call {
        words,
        failing_read: read,
        failing_write: 0,
    };
    let end = end_of(rt, alloc, call)?;
    expect(rt, &end, 3, b"")
}

/// The write fails, or the flush behind all of them, and the sink holds the bytes of the text before it.
fn try_write<R: Abort + Threads + Wait + Sync>(
    rt: &R,
    alloc: Global,
    words: &[&str],
    text: &str,
    write: u32,
) -> Result<(), AllocError> {
    let call = Call {
        words,
        failing_read: 0,
        failing_write: write,
    };
    let end = end_of(rt, alloc, call)?;
    let before = (write as usize).saturating_sub(1).min(text.len());
    expect(rt, &end, 4, &text.as_bytes()[..before])
}

#[test]
fn each_read_of_check_fails(rt: HostRuntime) -> Result<(), AllocError> {
    for read in 1..31 {
        try_read(&rt, rt.alloc(), &["bigengine", "check"], read)?;
    }
    Ok(())
}

/// The thirtieth read tells the end of the 232 bytes.
#[test]
fn a_read_behind_the_last_is_never_reached(rt: HostRuntime) -> Result<(), AllocError> {
    let call = Call {
        words: &["bigengine", "check"],
        failing_read: 31,
        failing_write: 0,
    };
    let end = end_of(&rt, rt.alloc(), call)?;
    if end.status == NO_MEMORY {
        return Err(AllocError);
    }
    assert!(&rt; end.status == 0);
    Ok(())
}

#[test]
fn each_write_of_match_fails(rt: HostRuntime) -> Result<(), AllocError> {
    for write in 1..55 {
        try_write(&rt, rt.alloc(), &["bigengine", "match"], entrances(), write)?;
    }
    Ok(())
}

#[test]
fn reads_and_writes_fail_beside_several_workers(rt: HostRuntime) -> Result<(), AllocError> {
    for workers in ["2", "8"] {
        let words = ["bigengine", "run", "--workers", workers];
        try_read(&rt, rt.alloc(), &words, 30)?;
        try_write(&rt, rt.alloc(), &words, JOURNAL, 1)?;
        try_write(&rt, rt.alloc(), &words, JOURNAL, 10)?;
    }
    Ok(())
}
