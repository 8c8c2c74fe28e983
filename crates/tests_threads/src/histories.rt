//! Histories of few entries, by two passes or by as many as there may be.
ghost use Rattle.std.specs.Prelude.{◌≡◌, ◌+◌, ◌<◌, [], length, IfOk, IfSome};
ghost use Rattle.bg_seats.specs.Histories.{new_pass};

use bg_base::Entry;
use bg_lists::{Mem, Rows};
use bg_seats::{HistoryTable, Pass, Turn, worker};
use std::alloc::Global;

/// An empty history, its passes of workers 0 and 1, and its turn.
fn two_passes(alloc: Global) -> Mem<Option<(HistoryTable, Pass, Pass, Turn)>>
    ensures { IfOk result (λ made. IfSome made (λ all. (all.1 ≡ new_pass all.0 0) × (all.2 ≡ new_pass all.0 1) × (all.3 ≡ record { table = all.0; passes = 2; list = [] }))) }
{
    let (table, mut passes, turn) = HistoryTable::new(alloc, 2)?;
    let Some(second) = passes.pop() else {
        return Ok(None);
    };
    let Some(first) = passes.pop() else {
        return Ok(None);
    };
    Ok(Some((table, first, second, turn)))
}

/// The pass sees all entries and records one more; the number of entries then.
fn recorded(alloc: Global, table: &HistoryTable, pass: &mut Pass, turn: &mut Turn) -> u32
    requires tables { (pass.old.table ≡ table.now) × (turn.old.table ≡ table.now) }
    requires room { length turn.old.list < 10 }
    ensures tables { (pass.new.table ≡ table.now) × (turn.new.table ≡ table.now) }
    ensures longer { length turn.new.list ≡ length turn.old.list + 1 }
{
    table.see(pass, turn);
    let entry = Entry {
        worker: worker(pass),
        rule: 0,
        map: Rows::from_vec(Vec::new(alloc)),
    };
    table.append(pass, turn, &entry)
}

#[test]
fn two_passes_record_in_turn(rt: HostRuntime) -> Mem<()> {
    let alloc = rt.alloc();
    let Some((table, mut first, mut second, mut turn)) = two_passes(alloc)? else {
        panic!(rt; "two passes were given")
    };
    assert!(rt; recorded(alloc, &table, &mut first, &mut turn) == 1);
    assert!(rt; recorded(alloc, &table, &mut second, &mut turn) == 2);
    assert!(rt; recorded(alloc, &table, &mut first, &mut turn) == 3);
    assert!(rt; table.see(&mut second, &mut turn) == 3);
    Ok(())
}

#[test]
fn a_pass_that_is_dropped_holds_nobody_up(rt: HostRuntime) -> Mem<()> {
    let alloc = rt.alloc();
    let Some((table, mut first, mut second, mut turn)) = two_passes(alloc)? else {
        panic!(rt; "two passes were given")
    };
    assert!(rt; recorded(alloc, &table, &mut second, &mut turn) == 1);
    drop(second);
    assert!(rt; recorded(alloc, &table, &mut first, &mut turn) == 2);
    Ok(())
}

#[test]
fn a_pass_that_has_ended_leaves_its_entries(rt: HostRuntime) -> Mem<()> {
    let alloc = rt.alloc();
    let Some((table, mut first, mut second, mut turn)) = two_passes(alloc)? else {
        panic!(rt; "two passes were given")
    };
    assert!(rt; recorded(alloc, &table, &mut first, &mut turn) == 1);
    table.end(first, &mut turn);
    table.compare(&mut second, &mut turn);
    assert!(rt; recorded(alloc, &table, &mut second, &mut turn) == 2);
    table.end(second, &mut turn);
    Ok(())
}

#[test]
fn a_load_counts_what_others_have_recorded(rt: HostRuntime) -> Mem<()> {
    let alloc = rt.alloc();
    let Some((table, mut first, mut second, mut turn)) = two_passes(alloc)? else {
        panic!(rt; "two passes were given")
    };
    assert!(rt; table.load(&mut second) == 0);
    assert!(rt; recorded(alloc, &table, &mut first, &mut turn) == 1);
    assert!(rt; table.load(&mut first) == 1);
    assert!(rt; table.load(&mut second) == 1);
    Ok(())
}

#[test]
fn the_most_passes_have_the_numbers_from_0(rt: HostRuntime) -> Mem<()> {
    let (_table, passes, _turn) = HistoryTable::new(rt.alloc(), 64)?;
    assert!(rt; passes.len() == 64);
    for (number, pass) in passes.iter().enumerate() {
        assert!(rt; worker(pass) as usize == number, "{number}");
    }
    Ok(())
}
