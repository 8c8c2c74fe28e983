//! The searches beside one another: of a plain host, of an indexed one, and in pieces by several threads.
ghost use Rattle.std.specs.Prelude.{◌≤◌};

use bg_base::Map;
use bg_cond::OpenGate;
use bg_index::IndexedHost;
use bg_lists::{Mem, OutOfMemory};
use bg_match::{NumberedHost, Walk, list};
use bg_par::list_parallel;
use bg_rules::{Host, ListFault, Pattern, System};
use std::alloc::Global;
use std::thread::Threads;

/// The most occurrences that are listed.
const MOST: u32 = 65_536;

/// Whether the pieces of so many workers give these occurrences.
fn are_found_by<R: Threads + Sync>(
    rt: &R,
    alloc: Global,
    host: &IndexedHost,
    pattern: &Pattern,
    workers: u32,
    maps: &[Map],
) -> Result<bool, ListFault>
    requires workers { (1 ≤ workers) × (workers ≤ 64) }
{
    host.keeps();
    let found = list_parallel(rt, alloc, host, pattern, workers, MOST, &OpenGate)?;
    Ok(found.as_slice() == maps)
}

/// Whether a walk over the indexed host gives these occurrences.
fn are_walked(
    alloc: Global,
    host: &IndexedHost,
    pattern: &Pattern,
    maps: &[Map],
) -> Result<bool, ListFault> {
    host.keeps();
    let walk = Walk::new(alloc, host, pattern)?;
    let walked = walk.collect(MOST)?;
    Ok(walked.as_slice() == maps)
}

/// Whether each search gives the occurrences of the pattern that the search of the plain host gives.
fn is_found_alike<R: Threads + Sync>(
    rt: &R,
    alloc: Global,
    plain: &Host,
    host: &IndexedHost,
    pattern: &Pattern,
) -> Result<bool, ListFault> {
    let maps = list(alloc, plain.big(), pattern, MOST)?;
    Ok(
        are_walked(alloc, host, pattern, &maps)?
            && are_found_by(rt, alloc, host, pattern, 1, &maps)?
            && are_found_by(rt, alloc, host, pattern, 2, &maps)?
            && are_found_by(rt, alloc, host, pattern, 7, &maps)?
            && are_found_by(rt, alloc, host, pattern, 64, &maps)?,
    )
}

/// Whether so it is of the redex of each rule.
pub(crate) fn are_found_alike<R: Threads + Sync>(
    rt: &R,
    alloc: Global,
    system: &System,
    host: &IndexedHost,
) -> Mem<bool> {
    let plain = host.to_host(alloc)?;
    for rule in system.rules() {
        match is_found_alike(rt, alloc, &plain, host, rule.redex()) {
            Ok(alike) => {
                if !alike {
                    return Ok(false);
                }
            }
            Err(ListFault::TooMany) => return Ok(false),
            Err(ListFault::OutOfMemory) => return Err(OutOfMemory),
        }
    }
    Ok(true)
}
