//! Numbers that are left out of a list.
ghost use Rattle.std.specs.Prelude.{◌≡◌, ◌==◌, ◌+◌, ◌<◌, ◌++◌, true, not, length, take, drop, filter, vec_capacity};
ghost use Rattle.std.specs.List.Sorted.{IsStrictlySortedBy};
ghost use Rattle.std.specs.Ordering.{nat_cmp};
ghost use Rattle.bg_lists.specs.Lists.{Mem};
ghost use Rattle.bg_index.specs.Commits.{IsThinned};
ghost use Rattle.bg_rules.specs.Instantiation.{is_among};

use crate::sets::is_none_of;

/// In the time in which one item is looked at, or searched, so many are moved up: fewer than so many are best taken out of a long
/// list one by one, wherever they stand.
const FEW: usize = 16;

/// Whether it costs less to take so many items out one by one, each by a search and by moving up what stands behind it, at most so
/// many items, than to look at all items of the list once.
pub fn is_cheaper_singly(gone: usize, behind: usize, all: usize) -> bool {
    gone.saturating_mul(behind.saturating_add(FEW)) < FEW.saturating_mul(all)
}

/// Whether the number is none of those that are gone, which ascend. Logarithmic.
pub fn stays(gone: &[u32], number: u32) -> bool
    requires ascending { IsStrictlySortedBy nat_cmp gone.now }
    ensures { result ≡ not (is_among number gone.now) }
{
    is_none_of(gone, number)
}

/// Leaves a number that is gone out of a list that ascends: it alone where that costs less, else all that are at once. So for
/// all numbers that are gone a list costs a search for each and moving up what stands behind it, and in all no more than looking
/// at each of its items twice.
pub fn leave_out(numbers: &mut Vec<u32>, number: u32, gone: &[u32])
    requires numbers_ascend { IsStrictlySortedBy nat_cmp numbers.old.items }
    requires gone_ascend { IsStrictlySortedBy nat_cmp gone.now }
    requires among { is_among number gone.now ≡ true }
    ensures thinned { IsThinned gone.now numbers.old.items numbers.new.items }
    ensures out { Mem number numbers.new.items → ⊥ }
    ensures capacity { vec_capacity numbers.new ≡ vec_capacity numbers.old }
{
    match numbers.binary_search(&number) {
        Ok(at) => {
            if is_cheaper_singly(gone.len(), numbers.len() - at, numbers.len()) {
                take_at(numbers, at);
            } else {
                keep(numbers, gone);
            }
        }
        Err(_) => {}
    }
}

/// Leaves all numbers that are gone out of a list that ascends: one by one where that costs less, else by a pass over all.
pub fn leave_out_all(numbers: &mut Vec<u32>, gone: &[u32])
    requires numbers_ascend { IsStrictlySortedBy nat_cmp numbers.old.items }
    requires gone_ascend { IsStrictlySortedBy nat_cmp gone.now }
    ensures kept { numbers.new.items ≡ filter (λ number. not (is_among number gone.now)) numbers.old.items }
    ensures capacity { vec_capacity numbers.new ≡ vec_capacity numbers.old }
{
    if is_cheaper_singly(gone.len(), behind_first(numbers, gone), numbers.len()) {
        take_each(numbers, gone);
    } else {
        keep(numbers, gone);
    }
}

/// How many numbers stand behind the first of these, or are that. Logarithmic.
fn behind_first(numbers: &[u32], gone: &[u32]) -> usize {
    match gone.first() {
        Some(first) => numbers.len() - numbers.partition_point(|number| *number < *first),
        None => 0,
    }
}

/// Takes these numbers out one by one.
fn take_each(numbers: &mut Vec<u32>, gone: &[u32])
    requires numbers_ascend { IsStrictlySortedBy nat_cmp numbers.old.items }
    ensures kept { numbers.new.items ≡ filter (λ number. not (is_among number gone.now)) numbers.old.items }
    ensures capacity { vec_capacity numbers.new ≡ vec_capacity numbers.old }
{
    for number in gone {
        take_number(numbers, *number);
    }
}

/// Takes the number out.
fn take_number(numbers: &mut Vec<u32>, number: u32)
    requires numbers_ascend { IsStrictlySortedBy nat_cmp numbers.old.items }
    ensures kept { numbers.new.items ≡ filter (λ other. not (other == number)) numbers.old.items }
    ensures capacity { vec_capacity numbers.new ≡ vec_capacity numbers.old }
{
    match numbers.binary_search(&number) {
        Ok(at) => take_at(numbers, at),
        Err(_) => {}
    }
}

/// Takes the number out that stands there.
fn take_at(numbers: &mut Vec<u32>, at: usize)
    requires inside { at < length numbers.old.items }
    ensures taken { numbers.new.items ≡ take at numbers.old.items ++ drop (at + 1) numbers.old.items }
    ensures capacity { vec_capacity numbers.new ≡ vec_capacity numbers.old }
{
    let _taken = numbers.remove(at);
}

/// Keeps the numbers that are none of these.
fn keep(numbers: &mut Vec<u32>, gone: &[u32])
    requires ascending { IsStrictlySortedBy nat_cmp gone.now }
    ensures kept { numbers.new.items ≡ filter (λ number. not (is_among number gone.now)) numbers.old.items }
    ensures capacity { vec_capacity numbers.new ≡ vec_capacity numbers.old }
{
    numbers.retain(|number| stays(gone, *number));
}
