//! Look-up in the rows of a valid bigraph, by binary search.
ghost use Rattle.std.specs.Prelude.{◌≡◌, ◌≤◌, ◌<◌, ◌+◌, ◌-◌, ℕ, None, MatchOption, is_some, option_copied};
ghost use Rattle.std.specs.List.Sorted.{IsStrictlySortedBy};
ghost use Rattle.std.specs.Ordering.{nat_cmp};
ghost use Rattle.bg_base.specs.Bigraph.{node_cmp, inner_cmp, row_of, edge_of, inner_of, outer_of};
ghost use Rattle.bg_base.specs.Lookup.{IsFirstRow};
ghost use Rattle.bg_base.specs.Order.{name_cmp};

use crate::{InnerRow, Name, NodeRow};

/// The row of the node, in rows that ascend by number, or `None` where no row has that number.
/// Takes no memory; logarithmic in the number of rows.
pub fn find_node(rows: &[NodeRow], node: u32) -> Option<&NodeRow>
    requires ascending { IsStrictlySortedBy node_cmp rows.now }
    ensures { option_copied result ≡ row_of rows.now node }
{
    match find_node_at(rows, node) {
        Some((_, row)) => Some(row),
        None => None,
    }
}

/// The row of the node and its position, in rows that ascend by number, or `None` where no row has that number.
/// Takes no memory; constant time where the numbers are in a row from 0, and never more than logarithmic in the number of rows.
pub fn find_node_at(rows: &[NodeRow], node: u32) -> Option<(usize, &NodeRow)>
    requires ascending { IsStrictlySortedBy node_cmp rows.now }
    ensures { MatchOption result (row_of rows.now node ≡ None) (λ found. IsFirstRow rows.now node found.0 found.1.now) }
{
    let last = rows.last()?;
    let (from, to) = reach(rows.len(), last.id, node);
    let (at, row) = find_within(&rows[from..to], node)?;
    Some((from + at, row))
}

/// The row of the node and its position, in rows that ascend by number, each of which is looked at alike.
fn find_within(rows: &[NodeRow], node: u32) -> Option<(usize, &NodeRow)>
    requires ascending { IsStrictlySortedBy node_cmp rows.now }
    ensures { MatchOption result (row_of rows.now node ≡ None) (λ found. IsFirstRow rows.now node found.0 found.1.now) }
{
    match rows.binary_search_by_key(&node, |row| row.id) {
        Ok(at) => Some((at, &rows[at])),
        Err(_) => None,
    }
}

/// Between which positions the item of a number can stand, of so many items that ascend by numbers, the last of which is
/// known: from the first of both to before the second. A number is no less than the position of its item, and from an item to
/// the last one the numbers rise by as much as the positions, or more. Where they are in a row from 0 it is one position.
/// Takes constant time and no memory.
pub fn reach(count: usize, last: u32, number: u32) -> (usize, usize)
    ensures ordered { result.0 ≤ result.1 }
    ensures within { result.1 ≤ count }
    ensures inside { (at : ℕ) → at < count → at ≤ number → number + (count - (at + 1)) ≤ last → (result.0 ≤ at) × (at < result.1) }
{
    if last < number {
        return (0, 0);
    }
    let behind = (last - number) as usize;
    let at_most = number as usize;
    let from = if behind < count {
        count - 1 - behind
    } else {
        0
    };
    let to = if at_most < count { at_most + 1 } else { count };
    if from < to { (from, to) } else { (0, 0) }
}

/// Whether the edge is there, in edges that ascend. Takes no memory; logarithmic in the number of edges.
pub fn has_edge(edges: &[u32], edge: u32) -> bool
    requires ascending { IsStrictlySortedBy nat_cmp edges.now }
    ensures { result ≡ is_some (edge_of edges.now edge) }
{
    edges.binary_search(&edge).is_ok()
}

/// Whether the outer name is there, in names that ascend. Takes no memory; logarithmic in the number of names, with one
/// comparison of names at each step.
pub fn has_outer(names: &[Name], name: &Name) -> bool
    requires ascending { IsStrictlySortedBy name_cmp names.now }
    ensures { result ≡ is_some (outer_of names.now name.now) }
{
    names.binary_search(name).is_ok()
}

/// The row of the inner name, in rows that ascend by name, or `None` where no row has that name.
/// Takes no memory; logarithmic in the number of rows, with one comparison of names at each step.
pub fn find_inner<'a>(rows: &'a [InnerRow], name: &Name) -> Option<&'a InnerRow>
    requires ascending { IsStrictlySortedBy inner_cmp rows.now }
    ensures { option_copied result ≡ inner_of rows.now name.now }
{
    match rows.binary_search_by(|row| row.name.cmp(name)) {
        Ok(at) => Some(&rows[at]),
        Err(_) => None,
    }
}
