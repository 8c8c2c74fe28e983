//! Telling a list of watchers.
ghost use Rattle.std.specs.Prelude.{◌≡◌, ◌+◌, ◌*◌, ◌≤◌, ◌++◌, length, map, OnOk, OnErr, vec_len, vec_capacity};
ghost use Rattle.std.specs.List.{flat_map};
ghost use Rattle.bg_watch.specs.Watching.{has_enough, is_enough, leaving, leaving_all, line_of, staying, staying_all, after_entry, watch_lines};

use crate::watcher::{Answer, Watcher};
use bg_base::Entry;
use bg_lists::{Mem, OutOfMemory};

/// Tells the watchers of the entries, in order, each with the number of nodes of the host after it, and each watcher in
/// order. One that has enough writes its line and goes; at the end the others write theirs, in order, and stay. It takes its
/// memory first: without memory nothing is told and nothing written. Costs a turn of each watcher for each entry.
pub fn tell_all(
    watchers: &mut Vec<Box<dyn Watcher>>,
    entries: &[Entry],
    nodes: &[u32],
    out: &mut Vec<u8>,
) -> Mem<()>
    requires { length entries.now ≡ length nodes.now }
    ensures stay { OnOk result (map (λ w. state w) watchers.new.items ≡ staying_all (map (λ w. state w) watchers.old.items) entries.now nodes.now) }
    ensures lines { OnOk result (out.new.items ≡ out.old.items ++ watch_lines (map (λ w. state w) watchers.old.items) entries.now nodes.now) }
    ensures short { vec_len out.new ≤ vec_len out.old + 64 * length watchers.old.items }
    ensures room { vec_capacity out.old ≤ vec_capacity out.new }
    ensures no_memory { OnErr result ((watchers.new ≡ watchers.old) × (out.new.items ≡ out.old.items)) }
{
    let room = watchers.len().checked_mul(64).ok_or(OutOfMemory)?;
    out.reserve(room)?;
    tell_entries(watchers, entries, nodes, out);
    write_lines(watchers.as_slice(), out);
    Ok(())
}

/// Tells the watchers of the entries; those that have enough write their lines and go.
fn tell_entries(
    watchers: &mut Vec<Box<dyn Watcher>>,
    entries: &[Entry],
    nodes: &[u32],
    out: &mut Vec<u8>,
)
    requires as_many { length entries.now ≡ length nodes.now }
    requires fits { vec_len out.old + 64 * length watchers.old.items ≤ vec_capacity out.old }
    ensures stay { map (λ w. state w) watchers.new.items ≡ staying_all (map (λ w. state w) watchers.old.items) entries.now nodes.now }
    ensures lines { out.new.items ≡ out.old.items ++ leaving_all (map (λ w. state w) watchers.old.items) entries.now nodes.now }
    ensures short { vec_len out.new + 64 * length watchers.new.items ≤ vec_len out.old + 64 * length watchers.old.items }
    ensures room { vec_capacity out.old ≤ vec_capacity out.new }
{
    for number in 0..entries.len() {
        tell_entry(watchers, &entries[number], nodes[number], out);
    }
}

/// Tells each watcher of the entry; those that have enough write their lines and go.
fn tell_entry(watchers: &mut Vec<Box<dyn Watcher>>, entry: &Entry, nodes: u32, out: &mut Vec<u8>)
    requires fits { vec_len out.old + 64 * length watchers.old.items ≤ vec_capacity out.old }
    ensures stay { map (λ w. state w) watchers.new.items ≡ staying (map (λ w. state w) watchers.old.items) entry.now nodes }
    ensures lines { out.new.items ≡ out.old.items ++ leaving (map (λ w. state w) watchers.old.items) entry.now nodes }
    ensures short { vec_len out.new + 64 * length watchers.new.items ≤ vec_len out.old + 64 * length watchers.old.items }
    ensures room { vec_capacity out.old ≤ vec_capacity out.new }
{
    let mut place = 0;
    while place < watchers.len() {
        match tell(&mut watchers[place], entry, nodes) {
            Answer::More => place += 1,
            Answer::Enough => {
                let watcher = watchers.remove(place);
                write_line(&watcher, out);
            }
        }
    }
}

/// The lines of the watchers, in order.
fn write_lines(watchers: &[Box<dyn Watcher>], out: &mut Vec<u8>)
    requires fits { vec_len out.old + 64 * length watchers.now ≤ vec_capacity out.old }
    ensures lines { out.new.items ≡ out.old.items ++ flat_map line_of (map (λ w. state w) watchers.now) }
    ensures short { vec_len out.new ≤ vec_len out.old + 64 * length watchers.now }
    ensures room { vec_capacity out.old ≤ vec_capacity out.new }
{
    for watcher in watchers {
        write_line(watcher, out);
    }
}

/// The watcher is told of the entry.
fn tell(watcher: &mut Box<dyn Watcher>, entry: &Entry, nodes: u32) -> Answer
    ensures told { state watcher.new ≡ after_entry (state watcher.old) entry.now nodes }
    ensures enough { is_enough result ≡ has_enough (state watcher.new) }
{
    watcher.note(entry, nodes)
}

/// The watcher writes its line.
fn write_line(watcher: &Box<dyn Watcher>, out: &mut Vec<u8>)
    requires fits { vec_len out.old + 64 ≤ vec_capacity out.old }
    ensures line { out.new.items ≡ out.old.items ++ line_of (state watcher.now) }
    ensures short { vec_len out.new ≤ vec_len out.old + 64 }
    ensures room { vec_capacity out.old ≤ vec_capacity out.new }
{
    watcher.line(out);
}
