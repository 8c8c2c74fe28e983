//! Two ascending lists made one.
ghost use Rattle.std.specs.Prelude.{◌≡◌, ◌+◌, ◌++◌, ℕ, [], length, IfOk, IfNone};
ghost use Rattle.std.specs.Option.{option_to_list};
ghost use Rattle.std.specs.List.Sorted.{IsStrictlySortedBy};
ghost use Rattle.std.specs.VecDeque.{deque_len};
ghost use Rattle.bg_lists.specs.Lists.{sort};
ghost use Rattle.bg_lists.specs.Orders.{before, by_number, first_leads};

use crate::Mem;
use std::alloc::Global;
use std::collections::VecDeque;

/// An item that a number puts in order.
pub trait Numbered: Drop {
    ghost number: { Self → ℕ };

    /// The number. Takes constant time.
    fn number(&self) -> u32
        ensures { result ≡ number self.now };
}

impl Numbered for u32 {
    ghost number = { λ n. n };

    fn number(&self) -> u32 {
        *self
    }
}

/// The items of both lists by number, where each ascends: what a sort of the one after the other gives. Moves the items
/// and copies none. Costs time in proportion to their number, and the memory of the list that it makes.
pub fn merged<T: Numbered>(alloc: Global, first: Vec<T>, second: Vec<T>) -> Mem<Vec<T>>
    requires first_ascends { IsStrictlySortedBy (by_number T.number) first.items }
    requires second_ascends { IsStrictlySortedBy (by_number T.number) second.items }
    ensures { IfOk result (λ made. made.items ≡ sort (before (by_number T.number)) (first.items ++ second.items)) }
{
    let mut made = Vec::with_capacity(alloc, first.len().saturating_add(second.len()))?;
    let mut first = VecDeque::from_vec(first);
    let mut second = VecDeque::from_vec(second);
    while let Some(item) = take_next(&mut first, &mut second) {
        made.push(item)?;
    }
    Ok(made)
}

/// Takes the item with the lowest number from the front of the one list or the other, where there is one.
fn take_next<T: Numbered>(first: &mut VecDeque<T>, second: &mut VecDeque<T>) -> Option<T>
    requires first_ascends { IsStrictlySortedBy (by_number T.number) first.old.items }
    requires second_ascends { IsStrictlySortedBy (by_number T.number) second.old.items }
    ensures taken { option_to_list result ++ sort (before (by_number T.number)) (first.new.items ++ second.new.items)
        ≡ sort (before (by_number T.number)) (first.old.items ++ second.old.items) }
    ensures left { deque_len first.new + deque_len second.new + length (option_to_list result) ≡ deque_len first.old + deque_len second.old }
    ensures none { IfNone result (first.new.items ++ second.new.items ≡ []) }
    ensures first_ascends { IsStrictlySortedBy (by_number T.number) first.new.items }
    ensures second_ascends { IsStrictlySortedBy (by_number T.number) second.new.items }
{
    if is_next(first, second) {
        first.pop_front()
    } else {
        second.pop_front()
    }
}

/// Whether the front of the first list comes next of both.
fn is_next<T: Numbered>(first: &VecDeque<T>, second: &VecDeque<T>) -> bool
    ensures { result ≡ first_leads T.number first.now.items second.now.items }
{
    match (first.front(), second.front()) {
        (Some(x), Some(y)) => x.number() < y.number(),
        (Some(_), None) => true,
        (None, _) => false,
    }
}
