//! The lines of watchers, and what stands behind them.
ghost use Rattle.std.specs.Prelude.{◌≡◌, ◌++◌, length, map, OnOk, OnErr};
ghost use Rattle.bg_watch.specs.Watching.{staying_all, watch_lines};

use bg_base::Entry;
use bg_lists::{Mem, OutOfMemory};
use bg_watch::{Watcher, tell_all};

/// Tells the watchers of the entries, and appends their lines and the rest of a text. It takes its memory first: without
/// memory nothing is told and nothing is written.
pub(crate) fn put_watched(
    watchers: &mut Vec<Box<dyn Watcher>>,
    entries: &[Entry],
    counts: &[u32],
    rest: &[u8],
    out: &mut Vec<u8>,
) -> Mem<()>
    requires { length entries.now ≡ length counts.now }
    ensures stay { OnOk result (map (λ w. state w) watchers.new.items ≡ staying_all (map (λ w. state w) watchers.old.items) entries.now counts.now) }
    ensures text { OnOk result (out.new.items ≡ out.old.items ++ (watch_lines (map (λ w. state w) watchers.old.items) entries.now counts.now ++ rest.now)) }
    ensures no_memory { OnErr result (watchers.new ≡ watchers.old) }
{
    let lines = watchers.len().checked_mul(64).ok_or(OutOfMemory)?;
    let room = lines.checked_add(rest.len()).ok_or(OutOfMemory)?;
    out.reserve(room)?;
    tell_all(watchers, entries, counts, out)?;
    out.extend_from_slice(rest).unwrap();
    Ok(())
}
