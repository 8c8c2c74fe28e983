//! Inner and outer names in search trees, and as rows.
ghost use Rattle.std.specs.Prelude as prelude;
ghost use Rattle.std.specs.Prelude.{◌≡◌, ◌≤◌, ◌↔◌, [], ◌++◌, length, drop, take, filter, not, is_some, All, IsNone, IsTrue, IfOk};
ghost use Rattle.std.specs.BTreeMap as map;
ghost use Rattle.std.specs.BTreeSet as set;
ghost use Rattle.std.specs.Cmp.Lexicographic.{slice_cmp};
ghost use Rattle.std.specs.List.{list_all};
ghost use Rattle.std.specs.List.Sorted.{IsStrictlySortedBy};
ghost use Rattle.std.specs.Ordering.{is_eq};
ghost use Rattle.bg_base.specs.Order.{name_cmp};
ghost use Rattle.bg_base.specs.Composition.{inner_names};
ghost use Rattle.bg_base.specs.Products as product;
ghost use Rattle.bg_builder.specs.Inside as inside;
ghost use Rattle.bg_base.specs.Bigraph.{inner_cmp, inner_of, outer_of};
ghost use Rattle.bg_base.specs.declared.names.Name.{Name as NameOf};
ghost use Rattle.bg_base.specs.declared.big.InnerRow.{InnerRow as RowOfInner};
ghost use Rattle.bg_lists.specs.Lists.{sort};
ghost use Rattle.bg_lists.specs.Orders.{before, set_of};
ghost use Rattle.bg_builder.specs.Frames.{inner_rows};

use crate::inside::{close_inner, link_inner};
use bg_base::{InnerRow, Link, Name};
use bg_lists::{Mem, copies};
use std::alloc::{AllocError, Global};
use std::cmp::Ordering;
use std::collections::{BTreeMap, BTreeSet};

/// The names in a search tree. Costs time n log n in their number.
pub(crate) fn outer_tree(alloc: Global, names: Vec<Name>) -> Mem<BTreeSet<Name>>
    requires ascending { IsStrictlySortedBy name_cmp names.items }
    ensures { IfOk result (λ tree. tree.keys ≡ names.items) }
{
    let tree = tree_of_names(alloc, names)?;
    Ok(tree)
}

/// The names in a search tree, each once. Copies them; costs time n log n in their number.
pub(crate) fn name_tree(alloc: Global, names: &[Name]) -> Mem<BTreeSet<Name>>
    ensures { IfOk result (λ tree. tree.keys ≡ set_of name_cmp names.now) }
{
    let tree = tree_of_names(alloc, copies(alloc, names)?)?;
    Ok(tree)
}

fn tree_of_names(alloc: Global, names: Vec<Name>) -> Result<BTreeSet<Name>, AllocError>
    ensures { IfOk result (set.IsFromIterResult name_cmp names.items) }
{
    names.into_iter().collect(alloc)
}

/// The names in their order. Moves them.
pub(crate) fn outer_list(alloc: Global, tree: BTreeSet<Name>) -> Mem<Vec<Name>>
    ensures { IfOk result (λ names. names.items ≡ tree.keys) }
{
    let names = tree.into_iter().collect(alloc)?;
    Ok(names)
}

/// The inner names with their links in a search tree. Costs time n log n in their number.
pub(crate) fn inner_tree(alloc: Global, rows: Vec<InnerRow>) -> Mem<BTreeMap<Name, Link>>
    requires ascending { IsStrictlySortedBy inner_cmp rows.items }
    ensures { IfOk result (λ tree. inner_rows tree.entries ≡ rows.items) }
{
    let pairs = inner_pairs(alloc, rows)?;
    let tree = tree_of_pairs(alloc, pairs)?;
    Ok(tree)
}

fn tree_of_pairs(
    alloc: Global,
    pairs: Vec<(Name, Link)>,
) -> Result<BTreeMap<Name, Link>, AllocError>
    ensures { IfOk result (map.IsFromIterResult name_cmp pairs.items) }
{
    pairs.into_iter().collect(alloc)
}

fn inner_pairs(alloc: Global, rows: Vec<InnerRow>) -> Mem<Vec<(Name, Link)>>
    ensures { IfOk result (λ pairs. inner_rows pairs.items ≡ rows.items) }
{
    let mut pairs = Vec::with_capacity(alloc, rows.len())?;
    for row in rows {
        pairs.push((row.name, row.link))?;
    }
    Ok(pairs)
}

/// The inner names with their links, in their order. Moves them.
pub(crate) fn inner_list(alloc: Global, tree: BTreeMap<Name, Link>) -> Mem<Vec<InnerRow>>
    ensures same { IfOk result (λ rows. rows.items ≡ inner_rows tree.entries) }
    ensures ascending { IfOk result (λ rows. IsStrictlySortedBy inner_cmp rows.items) }
{
    // Gives the proof that the names ascend.
    let _count = tree.len();
    let rows = rows_of(alloc, tree)?;
    Ok(rows)
}

fn rows_of(alloc: Global, tree: BTreeMap<Name, Link>) -> Mem<Vec<InnerRow>>
    ensures { IfOk result (λ rows. rows.items ≡ inner_rows tree.entries) }
{
    let mut rows = Vec::with_capacity(alloc, tree.len())?;
    for (name, link) in tree {
        rows.push(InnerRow { name, link })?;
    }
    Ok(rows)
}

/// The entries of both. Moves those of the second.
pub(crate) fn inner_of_both(
    mut first: BTreeMap<Name, Link>,
    mut second: BTreeMap<Name, Link>,
) -> Mem<BTreeMap<Name, Link>>
    requires { All (λ (row : RowOfInner). IsNone (inner_of (inner_rows first.entries) row.name)) (inner_rows second.entries) }
    ensures { IfOk result (λ tree. inner_rows tree.entries ≡ sort (before inner_cmp) (inner_rows first.entries ++ inner_rows second.entries)) }
{
    // Gives the proof that the names ascend.
    let _count = first.len();
    first.append(&mut second)?;
    Ok(first)
}

/// The names of both. Moves those of the second.
pub(crate) fn outer_of_both(
    mut first: BTreeSet<Name>,
    mut second: BTreeSet<Name>,
) -> Mem<BTreeSet<Name>>
    ensures { IfOk result (λ tree. tree.keys ≡ set_of name_cmp (first.keys ++ second.keys)) }
{
    first.append(&mut second)?;
    Ok(first)
}

/// Whether no inner name is in both.
pub(crate) fn inner_apart(first: &BTreeMap<Name, Link>, second: &BTreeMap<Name, Link>) -> bool
    ensures { IsTrue result ↔ All (λ (row : RowOfInner). IsNone (inner_of (inner_rows first.now.entries) row.name)) (inner_rows second.now.entries) }
{
    let apart = no_key_in(first, second);
    apart
}

fn no_key_in(first: &BTreeMap<Name, Link>, second: &BTreeMap<Name, Link>) -> bool
    ensures { result ≡ list_all (λ (name : NameOf). not (is_some (map.get name_cmp first.now name))) (map.keys second.now) }
{
    second.keys().all(|name| !first.contains_key(name))
}

/// Whether no outer name is in both.
pub(crate) fn outer_apart(first: &BTreeSet<Name>, second: &BTreeSet<Name>) -> bool
    ensures { IsTrue result ↔ All (λ (name : NameOf). IsNone (outer_of first.now.keys name)) second.now.keys }
{
    let apart = no_name_in(first, second);
    apart
}

fn no_name_in(first: &BTreeSet<Name>, second: &BTreeSet<Name>) -> bool
    ensures { result ≡ list_all (λ (name : NameOf). not (set.contains name_cmp first.now name)) second.now.keys }
{
    second.iter().all(|name| !first.contains(name))
}

/// Whether the names are the inner names.
pub(crate) fn names_agree(names: &BTreeSet<Name>, inner: &BTreeMap<Name, Link>) -> bool
    ensures { IsTrue result ↔ (names.now.keys ≡ inner_names (inner_rows inner.now.entries)) }
{
    let order = order_of(names, inner);
    order.is_eq()
}

fn order_of(names: &BTreeSet<Name>, inner: &BTreeMap<Name, Link>) -> Ordering
    ensures { result ≡ slice_cmp name_cmp names.now.keys (map.keys inner.now) }
{
    names.iter().cmp(inner.keys())
}

/// Whether there is no inner name.
pub(crate) fn has_no_inner(inner: &BTreeMap<Name, Link>) -> bool
    ensures { IsTrue result ↔ (inner_rows inner.now.entries ≡ []) }
{
    inner.is_empty()
}

/// Whether the outer name is there.
pub(crate) fn has_outer(names: &BTreeSet<Name>, name: &Name) -> bool
    ensures { result ≡ is_some (outer_of names.now.keys name.now) }
{
    names.contains(name)
}

/// The names without that one.
pub(crate) fn names_without(mut names: BTreeSet<Name>, name: &Name) -> BTreeSet<Name>
    ensures { result.keys ≡ filter (λ (other : NameOf). not (is_eq (name_cmp other name.now))) names.keys }
{
    // Gives the proof that the names ascend.
    let _count = names.len();
    let _there = names.remove(name);
    names
}

/// The inner names, tied by these of another bigraph.
pub(crate) fn inner_under(
    alloc: Global,
    tree: BTreeMap<Name, Link>,
    inner: &[InnerRow],
) -> Mem<BTreeMap<Name, Link>>
    requires { IsStrictlySortedBy inner_cmp inner.now }
    ensures { IfOk result (λ made. inner_rows made.entries ≡ prelude.map (inside.inner_by inner.now) (inner_rows tree.entries)) }
{
    let rows = tied(alloc, inner_list(alloc, tree)?, inner)?;
    let made = inner_tree(alloc, rows)?;
    Ok(made)
}

fn tied(alloc: Global, mut rows: Vec<InnerRow>, inner: &[InnerRow]) -> Mem<Vec<InnerRow>>
    requires { IsStrictlySortedBy inner_cmp inner.now }
    ensures { IfOk result (λ made. made.items ≡ prelude.map (inside.inner_by inner.now) rows.items) }
{
    link_inner(alloc, rows.as_mut_slice(), inner)?;
    Ok(rows)
}

/// The inner names, where the outer name is made the edge.
pub(crate) fn inner_closed(
    alloc: Global,
    tree: BTreeMap<Name, Link>,
    name: &Name,
    edge: u32,
) -> Mem<BTreeMap<Name, Link>>
    ensures { IfOk result (λ made. inner_rows made.entries ≡ prelude.map (product.inner_closed name.now edge) (inner_rows tree.entries)) }
{
    let rows = closed(inner_list(alloc, tree)?, name, edge);
    let made = inner_tree(alloc, rows)?;
    Ok(made)
}

fn closed(mut rows: Vec<InnerRow>, name: &Name, edge: u32) -> Vec<InnerRow>
    ensures { result.items ≡ prelude.map (product.inner_closed name.now edge) rows.items }
{
    close_inner(rows.as_mut_slice(), name, edge);
    rows
}
