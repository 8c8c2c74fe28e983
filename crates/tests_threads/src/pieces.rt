//! Searches in pieces, by `match`: the pieces are searched at once, and what is written is the same for each number of workers.
use crate::meeting::{Meeting, office};
use bg_cond::{Gate, Moment, OpenGate};
use bg_io::{MemorySink, MemorySource};
use bg_lists::Mem;
use bg_top::engine;
use std::alloc::{AllocError, Global};
use std::process::Abort;
use std::sync::Wait;
use std::sync::atomic::{AtomicU64, Ordering};
use std::thread::Threads;

/// What `match` with so many workers writes of the model; nothing where it does not end with 0.
fn matched<G: Gate + Sync, R: Threads + Wait + Sync>(
    rt: &R,
    alloc: Global,
    model: &str,
    workers: &str,
    gate: &G,
) -> Result<Option<Vec<u8>>, AllocError> {
    let mut words = Vec::new(alloc);
    for word in ["bigengine", "match", "--workers", workers] {
        words.push(String::from_str(alloc, word)?)?;
    }
    let bytes = model.as_bytes().to_vec(alloc)?;
    let mut source = MemorySource::new(bytes, 4096, Vec::new(alloc));
    let mut sink = MemorySink::new(alloc, 4096, Vec::new(alloc));
    let mut watchers = Vec::new(alloc);
    let status = engine(
        rt,
        alloc,
        words.as_slice(),
        &mut source,
        &mut sink,
        &mut watchers,
        gate,
    );
    if status == 0 {
        Ok(Some(sink.held().to_vec(alloc)?))
    } else {
        Ok(None)
    }
}

/// With so many workers `match` writes what it writes with one.
fn is_matched_alike<G: Gate + Sync, R: Threads + Wait + Sync>(
    rt: &R,
    alloc: Global,
    model: &str,
    workers: &str,
    gate: &G,
) -> Result<bool, AllocError> {
    let one = matched(rt, alloc, model, "1", &OpenGate)?;
    let many = matched(rt, alloc, model, workers, gate)?;
    Ok(one.is_some() && one == many)
}

#[test]
fn the_pieces_of_a_match_are_searched_at_once(rt: HostRuntime) -> Mem<()> {
    let gate = Meeting::at(Moment::Piece);
    let text = office(rt.alloc(), 20)?;
    assert!(rt; is_matched_alike(&rt, rt.alloc(), &text, "2", &gate)?);
    assert!(rt; gate.has_met());
    Ok(())
}

/// A gate that counts the first pieces, and those behind a first one.
#[derive(Drop)]
struct Pieces {
    first: AtomicU64,
    later: AtomicU64,
}

impl Pieces {
    fn none() -> Pieces {
        Pieces {
            first: AtomicU64::new(0),
            later: AtomicU64::new(0),
        }
    }

    /// So many first pieces were searched, and so many others.
    fn are(&self, first: u64, later: u64) -> bool {
        self.first.load(Ordering::SeqCst) == first && self.later.load(Ordering::SeqCst) == later
    }
}

impl Gate for Pieces {
    fn pass(&self, piece: u32, moment: Moment) {
        if moment != Moment::Piece {
            return;
        }
        if piece == 0 {
            self.first.fetch_add(1, Ordering::SeqCst);
        } else {
            self.later.fetch_add(1, Ordering::SeqCst);
        }
    }
}

/// In the model two patterns are sought, and behind their first pieces there are so many.
fn try_pieces<R: Abort + Threads + Wait + Sync>(
    rt: &R,
    alloc: Global,
    model: &str,
    workers: &str,
    later: u64,
) -> Mem<()> {
    let gate = Pieces::none();
    assert!(rt; is_matched_alike(rt, alloc, model, workers, &gate)?);
    assert!(rt; gate.are(2, later));
    Ok(())
}

#[test]
fn there_are_as_many_pieces_as_workers_or_candidates(rt: HostRuntime) -> Mem<()> {
    let text = office(rt.alloc(), 20)?;
    try_pieces(&rt, rt.alloc(), &text, "1", 0)?;
    try_pieces(&rt, rt.alloc(), &text, "7", 6)?;
    try_pieces(&rt, rt.alloc(), &text, "64", 19)
}
