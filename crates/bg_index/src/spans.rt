//! Numbers that ascend, of which a few go and to which a few come: the spans between these are copied whole.
ghost use Rattle.std.specs.Prelude.{◌≡◌, ◌↔◌, ◌++◌, ℕ, IfOk, OnOk, not, filter};
ghost use Rattle.std.specs.List.Sorted.{IsStrictlySortedBy};
ghost use Rattle.std.specs.Ordering.{nat_cmp};
ghost use Rattle.bg_index.specs.Spans as defined;
ghost use Rattle.bg_lists.specs.Lists.{Mem as Member};
ghost use Rattle.bg_rules.specs.Instantiation.{is_among};

use crate::sets::is_one_of;
use bg_lists::Mem;
use std::alloc::Global;

/// Those numbers that are none of the others; both ascend. Of m numbers and k others it costs a copy of the numbers, time
/// k log m, and memory m.
pub fn without(alloc: Global, numbers: &[u32], others: &[u32]) -> Mem<Vec<u32>>
    requires ascending { IsStrictlySortedBy nat_cmp numbers.now }
    requires others_ascend { IsStrictlySortedBy nat_cmp others.now }
    ensures { IfOk result (λ made. made.items ≡ filter (λ number. not (is_among number others.now)) numbers.now) }
{
    let made = spliced(alloc, numbers, others, &[])?;
    Ok(made)
}

/// The numbers without those that are gone, and those that arrive, ascending, each once; all three ascend. Of m numbers and k
/// others, which go or arrive, it costs a copy of the numbers, time k log m and k log k, and memory m and k.
pub fn changed(alloc: Global, numbers: &[u32], gone: &[u32], arrivals: &[u32]) -> Mem<Vec<u32>>
    requires ascending { IsStrictlySortedBy nat_cmp numbers.now }
    requires gone_ascend { IsStrictlySortedBy nat_cmp gone.now }
    requires arrivals_ascend { IsStrictlySortedBy nat_cmp arrivals.now }
    ensures ascending { IfOk result (λ made. IsStrictlySortedBy nat_cmp made.items) }
    ensures same { IfOk result (λ made. (number : ℕ) → (Member number made.items
        ↔ Member number (filter (λ other. not (is_among other gone.now)) numbers.now ++ arrivals.now))) }
{
    let cuts = joined(alloc, gone, arrivals)?;
    let made = spliced(alloc, numbers, &cuts, arrivals)?;
    Ok(made)
}

/// The numbers and those that arrive, ascending, each once; both ascend.
fn joined(alloc: Global, numbers: &[u32], arrivals: &[u32]) -> Mem<Vec<u32>>
    requires ascending { IsStrictlySortedBy nat_cmp numbers.now }
    requires arrivals_ascend { IsStrictlySortedBy nat_cmp arrivals.now }
    ensures ascending { IfOk result (λ made. IsStrictlySortedBy nat_cmp made.items) }
    ensures same { IfOk result (λ made. (number : ℕ) → (Member number made.items ↔ Member number (numbers.now ++ arrivals.now))) }
{
    let made = spliced(alloc, numbers, arrivals, arrivals)?;
    Ok(made)
}

/// The numbers without the cuts, and those of the cuts that are to stand, in order.
fn spliced(alloc: Global, numbers: &[u32], cuts: &[u32], stand: &[u32]) -> Mem<Vec<u32>>
    requires ascending { IsStrictlySortedBy nat_cmp numbers.now }
    requires stand_ascend { IsStrictlySortedBy nat_cmp stand.now }
    ensures { IfOk result (λ made. made.items ≡ defined.spliced stand.now cuts.now numbers.now) }
{
    let mut made = Vec::with_capacity(alloc, numbers.len().saturating_add(stand.len()))?;
    let mut rest = numbers;
    for cut in cuts {
        push_span(rest, *cut, stand, &mut made)?;
        rest = above(rest, *cut);
    }
    made.extend_from_slice(rest)?;
    Ok(made)
}

/// Puts the numbers below the cut behind the others, and the cut where it is to stand.
fn push_span(numbers: &[u32], cut: u32, stand: &[u32], made: &mut Vec<u32>) -> Mem<()>
    requires ascending { IsStrictlySortedBy nat_cmp numbers.now }
    requires stand_ascend { IsStrictlySortedBy nat_cmp stand.now }
    ensures { OnOk result (made.new.items ≡ made.old.items ++ defined.below cut numbers.now ++ defined.standing stand.now cut) }
{
    made.extend_from_slice(below(numbers, cut))?;
    push_standing(cut, stand, made)
}

/// Puts the cut behind the others, where it is to stand.
fn push_standing(cut: u32, stand: &[u32], made: &mut Vec<u32>) -> Mem<()>
    requires stand_ascend { IsStrictlySortedBy nat_cmp stand.now }
    ensures { OnOk result (made.new.items ≡ made.old.items ++ defined.standing stand.now cut) }
{
    if is_one_of(stand, cut) {
        made.push(cut)?;
    }
    Ok(())
}

/// The numbers below that one, of numbers that ascend. Logarithmic.
fn below(numbers: &[u32], number: u32) -> &[u32]
    requires ascending { IsStrictlySortedBy nat_cmp numbers.now }
    ensures { result.now ≡ defined.below number numbers.now }
{
    let count = numbers.partition_point(|other| *other < number);
    &numbers[..count]
}

/// The numbers above that one, of numbers that ascend. Logarithmic.
fn above(numbers: &[u32], number: u32) -> &[u32]
    requires ascending { IsStrictlySortedBy nat_cmp numbers.now }
    ensures { result.now ≡ defined.above number numbers.now }
{
    let start = numbers.partition_point(|other| *other <= number);
    &numbers[start..]
}
