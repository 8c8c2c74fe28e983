//! Whether conditions hold, asked of the whole host.
ghost use Rattle.std.specs.Prelude.{◌≡◌, ◌↔◌, ◌<◌, ◌^◌, length, IfOk, IsTrue, MatchOption};
ghost use Rattle.std.specs.List.{All};
ghost use Rattle.std.specs.List.Sorted.{IsSorted};
ghost use Rattle.std.specs.Ordering.{nat_cmp};
ghost use Rattle.bg_cond.specs.Lists.{IsListOf, IsListingOf, AreListsOfConditions};
ghost use Rattle.bg_cond.specs.Sides.{OccursOn, HoldsInHost};
ghost use Rattle.bg_cond.specs.Verdicts.{IsFirstUnmet};

use crate::listed::Listed;
use crate::sides::{in_order, lie_on, one_lies_on};
use bg_lists::Mem;
use bg_match::{NumberedHost, Walk};
use bg_rules::{Condition, Pattern, Side};
use std::alloc::Global;

/// Whether each of the conditions holds at the occurrence, up to the first that does not. Where the list of a
/// condition's pattern is made, its maps are gone through; else the occurrences are walked over.
pub(crate) fn all_hold<H: NumberedHost>(
    alloc: Global,
    host: &H,
    map: &[u32],
    conditions: &[Condition],
    lists: &[Option<Listed>],
) -> Mem<bool>
    requires lists { AreListsOfConditions (H.big host.now) conditions.now lists.now }
    ensures { IfOk result (λ answer. IsTrue answer ↔ All (HoldsInHost (H.big host.now) map.now) conditions.now) }
{
    if conditions.is_empty() {
        return Ok(true);
    }
    let images = in_order(alloc, map)?;
    let hold = all_hold_beside(alloc, host, images.as_slice(), conditions, lists)?;
    Ok(hold)
}

/// Whether each of the conditions holds at these images, which are in order.
fn all_hold_beside<H: NumberedHost>(
    alloc: Global,
    host: &H,
    images: &[u32],
    conditions: &[Condition],
    lists: &[Option<Listed>],
) -> Mem<bool>
    requires sorted { IsSorted nat_cmp images.now }
    requires lists { AreListsOfConditions (H.big host.now) conditions.now lists.now }
    ensures { IfOk result (λ answer. IsTrue answer ↔ All (HoldsInHost (H.big host.now) images.now) conditions.now) }
{
    for (number, condition) in conditions.iter().enumerate() {
        if !holds_by(alloc, host, images, condition, &lists[number])? {
            return Ok(false);
        }
    }
    Ok(true)
}

/// Whether the condition holds at these images, by the list of its pattern where that is made.
fn holds_by<H: NumberedHost>(
    alloc: Global,
    host: &H,
    images: &[u32],
    condition: &Condition,
    list: &Option<Listed>,
) -> Mem<bool>
    requires sorted { IsSorted nat_cmp images.now }
    requires list { IsListOf (H.big host.now) condition.now list.now }
    ensures { IfOk result (λ answer. IsTrue answer ↔ HoldsInHost (H.big host.now) images.now condition.now) }
{
    match list {
        Some(listed) => Ok(holds_in_list(host, images, condition, listed)),
        None => holds(alloc, host, images, condition),
    }
}

/// Whether the condition holds at these images, where its list is made.
fn holds_in_list<H: NumberedHost>(
    host: &H,
    images: &[u32],
    condition: &Condition,
    listed: &Listed,
) -> bool
    requires sorted { IsSorted nat_cmp images.now }
    requires list { IsListingOf (H.big host.now) condition.now listed.now }
    ensures { IsTrue result ↔ HoldsInHost (H.big host.now) images.now condition.now }
{
    let occurs = is_on_side(host, images, condition, listed);
    occurs == condition.positive
}

/// Whether one of the listed occurrences of the condition's pattern lies on the condition's side of the images.
fn is_on_side<H: NumberedHost>(
    host: &H,
    images: &[u32],
    condition: &Condition,
    listed: &Listed,
) -> bool
    requires sorted { IsSorted nat_cmp images.now }
    requires list { IsListingOf (H.big host.now) condition.now listed.now }
    ensures { IsTrue result ↔ OccursOn condition.now.side (H.big host.now) images.now condition.now.pattern }
{
    host.keeps();
    let _pattern = condition.pattern.big();
    one_lies_on(condition.side, host, images, listed)
}

/// Whether the condition holds at these images.
fn holds<H: NumberedHost>(
    alloc: Global,
    host: &H,
    images: &[u32],
    condition: &Condition,
) -> Mem<bool>
    requires sorted { IsSorted nat_cmp images.now }
    ensures { IfOk result (λ answer. IsTrue answer ↔ HoldsInHost (H.big host.now) images.now condition.now) }
{
    let occurs = occurs_on(alloc, host, condition.side, images, &condition.pattern)?;
    Ok(occurs == condition.positive)
}

/// Whether the pattern occurs in the host, all on that side of the images. Goes through its occurrences up to the first
/// that does.
fn occurs_on<H: NumberedHost>(
    alloc: Global,
    host: &H,
    side: Side,
    images: &[u32],
    pattern: &Pattern,
) -> Mem<bool>
    requires sorted { IsSorted nat_cmp images.now }
    ensures { IfOk result (λ answer. IsTrue answer ↔ OccursOn side (H.big host.now) images.now pattern.now) }
{
    host.keeps();
    let mut walk = Walk::new(alloc, host, pattern)?;
    while let Some(map) = walk.next()? {
        if lie_on(side, host, images, map.as_slice()) {
            return Ok(true);
        }
    }
    Ok(false)
}

/// The first of the conditions that does not hold at the occurrence.
pub(crate) fn first_unmet<H: NumberedHost>(
    alloc: Global,
    host: &H,
    map: &[u32],
    conditions: &[Condition],
) -> Mem<Option<u32>>
    requires few { length conditions.now < 2 ^ 32 }
    ensures { IfOk result (λ found. MatchOption found (All (HoldsInHost (H.big host.now) map.now) conditions.now)
        (λ number. IsFirstUnmet (H.big host.now) map.now conditions.now number)) }
{
    let images = in_order(alloc, map)?;
    let found = first_unmet_beside(alloc, host, images.as_slice(), conditions)?;
    Ok(found)
}

/// The first of the conditions that does not hold at these images, which are in order.
fn first_unmet_beside<H: NumberedHost>(
    alloc: Global,
    host: &H,
    images: &[u32],
    conditions: &[Condition],
) -> Mem<Option<u32>>
    requires sorted { IsSorted nat_cmp images.now }
    requires few { length conditions.now < 2 ^ 32 }
    ensures { IfOk result (λ found. MatchOption found (All (HoldsInHost (H.big host.now) images.now) conditions.now)
        (λ number. IsFirstUnmet (H.big host.now) images.now conditions.now number)) }
{
    for (number, condition) in conditions.iter().enumerate() {
        if !holds(alloc, host, images, condition)? {
            return Ok(Some(number as u32));
        }
    }
    Ok(None)
}
