//! Composition of bigraphs whose numbers lie in any order.
ghost use Rattle.std.specs.Prelude.{◌≡◌, ◌↔◌, List, [], ◌∷◌, ◌++◌, map, IfOk, IfErr, OnOk, IsErrOf, Contains};
ghost use Rattle.std.specs.List.Sorted.{IsStrictlySortedBy};
ghost use Rattle.std.specs.Ordering.{nat_cmp};
ghost use Rattle.bg_lists.specs.Lists.{sort};
ghost use Rattle.bg_lists.specs.Orders.{before};
ghost use Rattle.bg_base.specs.declared.signature.Control.{Control};
ghost use Rattle.bg_base.specs.Bigraph.{IsValid, IsValidUnder, node_cmp, inner_cmp};
ghost use Rattle.bg_base.specs.Composition.{FacesAgree, SupportsApart, compose as composition};
ghost use Rattle.bg_builder.specs.Inside as inside;

use crate::composing::put_rows;
use crate::inside::{link_inner, place_places};
use bg_algebra::{AlgebraFault, faces_agree, supports_apart};
use bg_base::{Big, InnerRow, NodeRow, Place};
use bg_lists::{Mem, Rows, merged};
use std::alloc::Global;

/// The composition of two valid bigraphs, `g` above and `f` below (Milner, chapter 2): what [`bg_algebra::compose`]
/// gives, of the rows of both. They are moved, and those of `f` are changed in place. It refuses, in this order:
/// `FacesDiffer`, number 11, where `f` has not as many regions as `g` has sites or the outer names of `f` are not the
/// inner names of `g`; `SupportMeets`, number 12, where a node or an edge is in both. Costs time in proportion to both,
/// and for each row and each link of `f` the logarithm of the rows of `g`; each port of `f` gets a copy of the name
/// that its link becomes.
pub fn compose(alloc: Global, g: Big, f: Big) -> Result<Big, AlgebraFault>
    requires g_valid { IsValid g }
    requires f_valid { IsValid f }
    ensures composed { IfOk result (λ whole. whole ≡ composition g f) }
    ensures defined { OnOk result (FacesAgree g f × SupportsApart g f) }
    ensures faces { IsErrOf result AlgebraFault.FacesDiffer ↔ ¬ FacesAgree g f }
    ensures supports { IsErrOf result AlgebraFault.SupportMeets ↔ (FacesAgree g f × ¬ SupportsApart g f) }
    ensures no_other { IfErr result (λ fault. Contains (AlgebraFault.FacesDiffer ∷ AlgebraFault.SupportMeets ∷ AlgebraFault.OutOfMemory ∷ []) fault) }
    ensures valid { IfOk result IsValid }
    ensures fits { (signature : List Control) → IsValidUnder signature g → IsValidUnder signature f
        → IfOk result (IsValidUnder signature) }
{
    if !faces_agree(&g, &f) {
        return Err(AlgebraFault::FacesDiffer);
    }
    if !supports_apart(&g, &f) {
        return Err(AlgebraFault::SupportMeets);
    }
    Ok(whole(alloc, g, f)?)
}

/// The composition where it is defined.
fn whole(alloc: Global, g: Big, f: Big) -> Mem<Big>
    requires g_valid { IsValid g }
    requires f_valid { IsValid f }
    ensures { IfOk result (λ whole. whole ≡ composition g f) }
{
    let Big {
        nodes,
        edges,
        sites,
        inner,
        regions,
        outer,
    } = g;
    let Big {
        nodes: lower_nodes,
        edges: lower_edges,
        sites: lower_sites,
        inner: lower_inner,
        regions: _,
        outer: _,
    } = f;
    let nodes = composed_nodes(alloc, nodes, lower_nodes, &sites, &inner)?;
    let edges = both_edges(alloc, edges, lower_edges)?;
    let sites = sites_through(lower_sites, &sites);
    let inner = inner_through(alloc, lower_inner, &inner)?;
    Ok(Big {
        nodes,
        edges,
        sites,
        inner,
        regions,
        outer,
    })
}

/// The nodes of both by number, those of the lower bigraph through these sites and these inner names.
fn composed_nodes(
    alloc: Global,
    upper: Rows<NodeRow>,
    lower: Rows<NodeRow>,
    sites: &Rows<Place>,
    inner: &Rows<InnerRow>,
) -> Mem<Rows<NodeRow>>
    requires upper_ascends { IsStrictlySortedBy node_cmp upper }
    requires lower_ascends { IsStrictlySortedBy node_cmp lower }
    requires inner_ascends { IsStrictlySortedBy inner_cmp inner.now }
    ensures { IfOk result (λ rows. rows ≡ sort (before node_cmp) (upper ++ map (inside.row_by inner.now) (map (inside.row_at sites.now) lower))) }
{
    let moved = rows_through(alloc, lower, sites, inner)?;
    let both = merged(alloc, upper.into_vec(), moved)?;
    let rows = Rows::try_from_vec(both)?;
    Ok(rows)
}

/// The rows, put into these sites and tied by these inner names.
fn rows_through(
    alloc: Global,
    rows: Rows<NodeRow>,
    sites: &Rows<Place>,
    inner: &Rows<InnerRow>,
) -> Mem<Vec<NodeRow>>
    requires { IsStrictlySortedBy inner_cmp inner.now }
    ensures { IfOk result (λ moved. moved.items ≡ map (inside.row_by inner.now) (map (inside.row_at sites.now) rows)) }
{
    let mut rows = rows.into_vec();
    put_rows(
        alloc,
        rows.as_mut_slice(),
        sites.as_slice(),
        inner.as_slice(),
    )?;
    Ok(rows)
}

/// The edges of both, by number.
fn both_edges(alloc: Global, upper: Rows<u32>, lower: Rows<u32>) -> Mem<Rows<u32>>
    requires upper_ascends { IsStrictlySortedBy nat_cmp upper }
    requires lower_ascends { IsStrictlySortedBy nat_cmp lower }
    ensures { IfOk result (λ edges. edges ≡ sort (before nat_cmp) (upper ++ lower)) }
{
    let both = merged(alloc, upper.into_vec(), lower.into_vec())?;
    let edges = Rows::try_from_vec(both)?;
    Ok(edges)
}

/// The places, put into these sites.
fn sites_through(places: Rows<Place>, sites: &Rows<Place>) -> Rows<Place>
    ensures { result ≡ map (inside.place_at sites.now) places }
{
    let mut places = places.into_vec();
    place_places(places.as_mut_slice(), sites.as_slice());
    Rows::from_vec(places)
}

/// The inner names, tied by these.
fn inner_through(alloc: Global, rows: Rows<InnerRow>, inner: &Rows<InnerRow>) -> Mem<Rows<InnerRow>>
    requires { IsStrictlySortedBy inner_cmp inner.now }
    ensures { IfOk result (λ moved. moved ≡ map (inside.inner_by inner.now) rows) }
{
    let mut rows = rows.into_vec();
    link_inner(alloc, rows.as_mut_slice(), inner.as_slice())?;
    let moved = Rows::try_from_vec(rows)?;
    Ok(moved)
}
