//! The nodes that a reaction drops.
ghost use Rattle.std.specs.Prelude.{◌≡◌, ◌↔◌, ℕ, IfOk, length};
ghost use Rattle.std.specs.List.Sorted.{IsStrictlySortedBy};
ghost use Rattle.std.specs.Ordering.{nat_cmp};
ghost use Rattle.bg_lists.specs.Lists.{Mem as Member, At};
ghost use Rattle.bg_index.specs.Going.{AreGathered};
ghost use Rattle.bg_index.specs.Readings.{boundary_of};
ghost use Rattle.bg_rewriting.specs.Boundaries.{times_asked};
ghost use Rattle.bg_rewriting.specs.Touching.{IsListed};

use crate::reading::{Part, Reading};
use crate::sets::number_set;
use bg_lists::Mem;
use bg_rules::Rule;
use std::alloc::Global;

/// The nodes that are dropped, ascending: the images, and the parts of the sites for which no entry asks. Costs time
/// n log n in their number.
pub fn gone_of(alloc: Global, map: &[u32], reading: &Reading, rule: &Rule) -> Mem<Vec<u32>>
    requires asked_many { length reading.now.asked.items ≡ length rule.now.redex.sites }
    requires parts_many { length reading.now.parts.items ≡ length rule.now.redex.sites }
    requires asked_are { (site count : ℕ) → At count site reading.now.asked.items → count ≡ times_asked rule.now.map site }
    ensures ascending { IfOk result (λ gone. IsStrictlySortedBy nat_cmp gone.items) }
    ensures listed { IfOk result (λ gone. (node : ℕ) → (Member node gone.items ↔ IsListed rule.now map.now (boundary_of reading.now) node)) }
{
    let gone = gathered(alloc, map, &reading.asked, &reading.parts)?;
    Ok(number_set(gone))
}

/// The images, and the parts of the sites for which no entry asks.
fn gathered(alloc: Global, map: &[u32], asked: &[u32], parts: &[Part]) -> Mem<Vec<u32>>
    requires beside { length asked.now ≡ length parts.now }
    ensures { IfOk result (λ gone. AreGathered map.now asked.now parts.now (length parts.now) gone.items) }
{
    let mut gone = Vec::from_slice(alloc, map)?;
    for (site, part) in parts.iter().enumerate() {
        if asked[site] == 0 {
            gone.extend_from_slice(&part.nodes)?;
        }
    }
    Ok(gone)
}
