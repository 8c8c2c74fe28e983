//! The conditions under which operations on two bigraphs are defined.
ghost use Rattle.std.specs.Prelude.{◌≡◌, ◌↔◌, [], length, IsTrue, IsNone};
ghost use Rattle.std.specs.List.{All};
ghost use Rattle.std.specs.List.Sorted.{IsStrictlySortedBy};
ghost use Rattle.std.specs.Ordering.{nat_cmp};
ghost use Rattle.bg_base.specs.declared.names.Name.{Name as NameOf};
ghost use Rattle.bg_base.specs.declared.big.NodeRow.{NodeRow as RowOfNode};
ghost use Rattle.bg_base.specs.declared.big.InnerRow.{InnerRow as RowOfInner};
ghost use Rattle.bg_base.specs.Order.{name_cmp};
ghost use Rattle.bg_base.specs.Bigraph.{node_cmp, inner_cmp, row_of, edge_of, inner_of, outer_of};
ghost use Rattle.bg_base.specs.Composition.{FacesAgree, SupportsApart, inner_names};
ghost use Rattle.bg_base.specs.Products.{InnerApart, OuterApart};

use bg_base::{Big, InnerRow, Name, NodeRow, find_inner, find_node, has_edge, has_outer};

/// Whether the outer face of `f` is the inner face of `g`: there are as many regions as sites, and the outer names are
/// the inner names. Costs time in proportion to the names.
pub fn faces_agree(g: &Big, f: &Big) -> bool
    ensures { IsTrue result ↔ FacesAgree g.now f.now }
{
    f.regions == g.sites.len() && names_agree(&f.outer, &g.inner)
}

/// Whether the names are those of the rows, in their order.
fn names_agree(names: &[Name], rows: &[InnerRow]) -> bool
    ensures { IsTrue result ↔ (names.now ≡ inner_names rows.now) }
{
    if names.len() != rows.len() {
        return false;
    }
    for (at, name) in names.iter().enumerate() {
        if !is_named(&rows[at], name) {
            return false;
        }
    }
    true
}

fn is_named(row: &InnerRow, name: &Name) -> bool
    ensures { IsTrue result ↔ (row.now.name ≡ name.now) }
{
    row.name == *name
}

/// Whether no node and no edge is in both. Costs time in proportion to `f`, and for each of its rows the logarithm of
/// the number of rows of `g`.
pub fn supports_apart(g: &Big, f: &Big) -> bool
    requires nodes_ascend { IsStrictlySortedBy node_cmp g.now.nodes }
    requires edges_ascend { IsStrictlySortedBy nat_cmp g.now.edges }
    ensures { IsTrue result ↔ SupportsApart g.now f.now }
{
    nodes_apart(&g.nodes, &f.nodes) && edges_apart(&g.edges, &f.edges)
}

fn nodes_apart(upper: &[NodeRow], lower: &[NodeRow]) -> bool
    requires ascending { IsStrictlySortedBy node_cmp upper.now }
    ensures { IsTrue result ↔ All (λ (row : RowOfNode). IsNone (row_of upper.now row.id)) lower.now }
{
    lower.iter().all(|row| find_node(upper, row.id).is_none())
}

fn edges_apart(upper: &[u32], lower: &[u32]) -> bool
    requires ascending { IsStrictlySortedBy nat_cmp upper.now }
    ensures { IsTrue result ↔ All (λ edge. IsNone (edge_of upper.now edge)) lower.now }
{
    lower.iter().all(|edge| !has_edge(upper, *edge))
}

/// Whether no inner name is in both.
pub(crate) fn inner_apart(f: &Big, g: &Big) -> bool
    requires ascending { IsStrictlySortedBy inner_cmp f.now.inner }
    ensures { IsTrue result ↔ InnerApart f.now g.now }
{
    inner_rows_apart(&f.inner, &g.inner)
}

fn inner_rows_apart(first: &[InnerRow], second: &[InnerRow]) -> bool
    requires ascending { IsStrictlySortedBy inner_cmp first.now }
    ensures { IsTrue result ↔ All (λ (row : RowOfInner). IsNone (inner_of first.now row.name)) second.now }
{
    second
        .iter()
        .all(|row| find_inner(first, &row.name).is_none())
}

/// Whether no outer name is in both.
pub(crate) fn outer_apart(f: &Big, g: &Big) -> bool
    requires ascending { IsStrictlySortedBy name_cmp f.now.outer }
    ensures { IsTrue result ↔ OuterApart f.now g.now }
{
    outer_names_apart(&f.outer, &g.outer)
}

fn outer_names_apart(first: &[Name], second: &[Name]) -> bool
    requires ascending { IsStrictlySortedBy name_cmp first.now }
    ensures { IsTrue result ↔ All (λ (name : NameOf). IsNone (outer_of first.now name)) second.now }
{
    second.iter().all(|name| !has_outer(first, name))
}

/// Whether there is no inner name.
pub(crate) fn has_no_inner(f: &Big) -> bool
    ensures { IsTrue result ↔ (f.now.inner ≡ []) }
{
    f.inner.is_empty()
}

/// Whether `g` has as many regions as `f` has sites.
pub(crate) fn widths_agree(f: &Big, g: &Big) -> bool
    ensures { IsTrue result ↔ (g.now.regions ≡ length f.now.sites) }
{
    g.regions == f.sites.len()
}
