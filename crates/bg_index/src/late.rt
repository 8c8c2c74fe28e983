//! Which entries of a map are late: an earlier entry asks for the same site.
ghost use Rattle.std.specs.Prelude.{◌≡◌, ◌<◌, ◌≤◌, [], IfOk, MatchOption, slice_index_or};
ghost use Rattle.bg_index.specs.Copying as copying;
ghost use Rattle.bg_index.specs.Readings.{AreLate, boundary_of};
ghost use Rattle.bg_rewriting.specs.Rewriting.{late_count};

use crate::reading::{Part, Reading};
use bg_lists::Mem;
use std::alloc::Global;
use std::collections::BTreeSet;

/// For each entry whether an earlier one asks for the same site. Costs time n log n and memory n in the number of
/// entries.
pub fn late_entries(alloc: Global, entries: &[u32]) -> Mem<Vec<bool>>
    ensures { IfOk result (λ late. AreLate entries.now late.items) }
{
    let mut seen = BTreeSet::new(alloc);
    let mut late = Vec::with_capacity(alloc, entries.len())?;
    for entry in entries {
        let is_new = seen.insert(*entry)?;
        late.push(!is_new)?;
    }
    Ok(late)
}

/// The nodes at the site where the entry is late, none where it is not. Takes constant time.
pub fn late_part(parts: &[Part], is_late: bool, site: u32) -> &[u32]
    ensures { result.now ≡ copying.late_part (copying.parts_of parts.now) is_late site }
{
    if is_late { part_at(parts, site) } else { &[] }
}

fn part_at(parts: &[Part], site: u32) -> &[u32]
    ensures { result.now ≡ slice_index_or (copying.parts_of parts.now) site [] }
{
    match parts.get(site as usize) {
        Some(part) => part.nodes.as_slice(),
        None => &[],
    }
}

/// How many nodes the late copies will have, none where that passes `most`. Costs time in proportion to the entries, and
/// takes no memory.
pub fn count_late(reading: &Reading, entries: &[u32], most: u32) -> Option<u32>
    requires late { AreLate entries.now reading.now.late.items }
    ensures { MatchOption result
        (most < late_count (boundary_of reading.now).parts [] entries.now)
        (λ count. (count ≡ late_count (boundary_of reading.now).parts [] entries.now) × (count ≤ most)) }
{
    let mut count = 0;
    for (at, site) in entries.iter().enumerate() {
        let nodes = late_part(&reading.parts, reading.late[at], *site).len();
        if nodes > (most - count) as usize {
            return None;
        }
        count += nodes as u32;
    }
    Some(count)
}
