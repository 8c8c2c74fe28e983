//! A list of rows that numbers of 32 bits can number.
ghost use Rattle.std.specs.Prelude.{◌≡◌, ◌-◌, ◌^◌, ◌<◌, ◌≤◌, ◌↔◌, length, take, IfOk, IsOk, IsTrue, Some};
ghost use Rattle.std.specs.Cmp.Lexicographic.{pointwise, slice_cmp, slice_partial_cmp, lists_per, lists_equiv, lists_po, lists_total, lists_agrees, lists_ties};

use crate::{Duplicate, Mem, OutOfMemory};
use std::alloc::Global;
use std::cmp::Ordering;
use std::fmt;
use std::marker::Model;
use std::ops::DerefSlice;

/// A list of rows, fewer than 4,294,967,295 of them, so that a `u32` numbers each row and counts them all.
/// A contract sees the list of the rows, whatever the capacity.
#[derive(Drop)]
pub struct Rows<T> {
    items: Vec<T>,
}

impl<T> Model for Rows<T> {
    ghost use Rattle.std.specs.Prelude.{List, length, ◌<◌, ◌-◌, ◌^◌};

    ghost Value = { List T };

    ghost view = { λ rows. rows.items.items };

    ghost invariant = { λ rows. length rows.items.items < 2 ^ 32 - 1 };
}

impl<T> Rows<T> {
    /// The list of the rows of `items`. Takes no memory.
    pub fn from_vec(items: Vec<T>) -> Rows<T>
        requires { length items.items < 2 ^ 32 - 1 }
        ensures { result ≡ items.items }
    {
        Rows { items }
    }

    /// The list of the rows of `items`, where 32 bits can number them. Takes no memory.
    pub fn try_from_vec(items: Vec<T>) -> Mem<Rows<T>>
    where
        T: Drop,
        ensures same { IfOk result (λ rows. rows ≡ items.items) }
        ensures fits { IsOk result ↔ (length items.items < 2 ^ 32 - 1) }
    {
        if items.len() < 4_294_967_295 {
            Ok(Rows { items })
        } else {
            Err(OutOfMemory)
        }
    }

    /// Gives the rows back as a `Vec`. Takes no memory.
    pub fn into_vec(self) -> Vec<T>
        ensures { result.items ≡ self }
    {
        let Rows { items } = self;
        items
    }

    /// The rows.
    pub fn as_slice(&self) -> &[T]
        ensures same { result.now ≡ self.now }
        ensures small { length result.now < 2 ^ 32 - 1 }
    {
        self.items.as_slice()
    }

    /// The number of rows.
    pub fn len(&self) -> u32
        ensures count { result ≡ length self.now }
        ensures small { result < 2 ^ 32 - 1 }
    {
        self.items.len() as u32
    }

    /// Whether there is no row.
    pub fn is_empty(&self) -> bool
        ensures { IsTrue result ↔ (length self.now ≡ 0) }
    {
        self.items.is_empty()
    }
}

impl<T> DerefSlice for Rows<T> {
    type Elem = T;

    ghost deref_gives = { λ rows xs. xs ≡ rows };

    fn deref(&self) -> &[T] {
        self.items.as_slice()
    }
}

impl<T: Duplicate> Duplicate for Rows<T> {
    fn copy(&self, alloc: Global) -> Mem<Rows<T>> {
        let items = copies(alloc, self.as_slice())?;
        Ok(Rows::from_vec(items))
    }
}

/// Copies of all items, in their order. Costs time and memory in proportion to them.
pub fn copies<T: Duplicate>(alloc: Global, items: &[T]) -> Mem<Vec<T>>
    ensures { IfOk result (λ made. made.items ≡ items.now) }
{
    let mut made = Vec::with_capacity(alloc, items.len())?;
    for item in items {
        made.push(item.copy(alloc)?)?;
    }
    Ok(made)
}

impl<T: PartialEq> PartialEq for Rows<T> {
    ghost eq = { λ v w. pointwise T.eq v w };

    ghost laws = { lists_per T.laws };

    fn eq(&self, other: &Self) -> bool {
        self.as_slice() == other.as_slice()
    }
}

impl<T: Eq> Eq for Rows<T> {
    ghost laws = { lists_equiv T.Eq.laws };
}

impl<T: PartialOrd> PartialOrd for Rows<T> {
    ghost partial_cmp = { λ v w. slice_partial_cmp T.partial_cmp v w };

    ghost laws = { lists_po T.PartialOrd.laws };

    fn partial_cmp(&self, other: &Self) -> Option<Ordering> {
        self.as_slice().partial_cmp(&other.as_slice())
    }
}

impl<T: Ord> Ord for Rows<T> {
    ghost cmp = { slice_cmp T.cmp };

    ghost total = { lists_total T.total };

    ghost matches_partial_cmp = { λ v w. lists_agrees T.matches_partial_cmp v w };

    ghost matches_eq = { λ v w. lists_ties T.cmp T.matches_eq v w };

    fn cmp(&self, other: &Self) -> Ordering {
        self.as_slice().cmp(&other.as_slice())
    }
}

impl<T: fmt::Debug> fmt::Debug for Rows<T> {
    fn fmt<W: fmt::Write>(&self, f: &mut fmt::Formatter<W>) -> fmt::Result {
        f.debug_list().entries(self.as_slice()).finish()
    }
}
