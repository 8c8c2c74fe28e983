//! Edges are taken out, and put behind the others; the points of edges and names are changed. Takes no memory.
ghost use Rattle.std.specs.Prelude.{◌≡◌, ◌+◌, ◌<◌, ◌≤◌, ◌==◌, ◌++◌, ◌∷◌, [], not, length, take, drop, filter, vec_len, vec_capacity};
ghost use Rattle.std.specs.List.Sorted.{IsStrictlySortedBy};
ghost use Rattle.std.specs.Ordering.{nat_cmp};
ghost use Rattle.bg_index.specs.declared.entries.EdgeEntry.{EdgeEntry as EdgeValue};
ghost use Rattle.bg_index.specs.declared.plans.LinkKey.TheVariants.{Edge as EdgeKey, Name as NameKey};
ghost use Rattle.bg_index.specs.Commits.{AreBeside, AreEdgesAfter, AreFrom, CanTake, EdgesCanTake, IsEdgeBundled, IsNameBundled, NamesCanTake, edge_key};
ghost use Rattle.bg_index.specs.Indexed.{edge_cmp};
ghost use Rattle.bg_index.specs.Plans.{bundle_cmp, points_left};
ghost use Rattle.bg_rules.specs.Instantiation.{is_among};

use crate::entries::{EdgeEntry, NameEntry};
use crate::leaving::{is_cheaper_singly, stays};
use crate::plans::{Bundle, LinkKey};

/// Takes the idle edges out, changes the points of links, and puts the used edges behind.
pub fn change_links(
    edges: &mut Vec<EdgeEntry>,
    names: &mut Vec<NameEntry>,
    idle: &[u32],
    gone: &[u32],
    bundles: Vec<Bundle>,
    used: Vec<EdgeEntry>,
)
    requires ascending { IsStrictlySortedBy edge_cmp edges.old.items }
    requires idle_ascends { IsStrictlySortedBy nat_cmp idle.now }
    requires gone_ascends { IsStrictlySortedBy nat_cmp gone.now }
    requires bundles_ascend { IsStrictlySortedBy bundle_cmp bundles.items }
    requires edges_take { EdgesCanTake edges.old.items bundles.items }
    requires names_take { NamesCanTake names.old.items bundles.items }
    requires room { vec_len edges.old + length used.items ≤ vec_capacity edges.old }
    ensures edges { AreEdgesAfter edges.old.items idle.now gone.now bundles.items used.items edges.new.items }
    ensures names { AreBeside (IsNameBundled gone.now bundles.items) names.old.items names.new.items }
{
    drop_edges(edges, idle);
    change_bundles(edges, names, gone, bundles);
    push_edges(edges, used);
}

/// Takes these edges out: one by one where that costs less, else by a pass over all.
fn drop_edges(edges: &mut Vec<EdgeEntry>, idle: &[u32])
    requires edges_ascend { IsStrictlySortedBy edge_cmp edges.old.items }
    requires ascending { IsStrictlySortedBy nat_cmp idle.now }
    ensures kept { edges.new.items ≡ filter (λ (entry : EdgeValue). not (is_among entry.edge idle.now)) edges.old.items }
    ensures count { vec_len edges.new ≤ vec_len edges.old }
    ensures capacity { vec_capacity edges.new ≡ vec_capacity edges.old }
{
    if is_cheaper_singly(idle.len(), behind_first(edges, idle), edges.len()) {
        take_edges(edges, idle);
    } else {
        edges.retain(|entry| stays(idle, entry.edge));
    }
}

/// How many edges stand behind the first of these, or are that. Logarithmic.
fn behind_first(edges: &[EdgeEntry], idle: &[u32]) -> usize {
    match idle.first() {
        Some(first) => edges.len() - edges.partition_point(|entry| entry.edge < *first),
        None => 0,
    }
}

/// Takes these edges out one by one.
fn take_edges(edges: &mut Vec<EdgeEntry>, idle: &[u32])
    requires edges_ascend { IsStrictlySortedBy edge_cmp edges.old.items }
    ensures kept { edges.new.items ≡ filter (λ (entry : EdgeValue). not (is_among entry.edge idle.now)) edges.old.items }
    ensures count { vec_len edges.new ≤ vec_len edges.old }
    ensures capacity { vec_capacity edges.new ≡ vec_capacity edges.old }
{
    for edge in idle {
        take_edge(edges, *edge);
    }
}

/// Takes the edge out.
fn take_edge(edges: &mut Vec<EdgeEntry>, edge: u32)
    requires edges_ascend { IsStrictlySortedBy edge_cmp edges.old.items }
    ensures kept { edges.new.items ≡ filter (λ (entry : EdgeValue). not (entry.edge == edge)) edges.old.items }
    ensures count { vec_len edges.new ≤ vec_len edges.old }
    ensures capacity { vec_capacity edges.new ≡ vec_capacity edges.old }
{
    match edges.binary_search_by_key(&edge, |entry| entry.edge) {
        Ok(at) => take_edge_at(edges, at),
        Err(_) => {}
    }
}

/// Takes the edge out that stands there.
fn take_edge_at(edges: &mut Vec<EdgeEntry>, at: usize)
    requires inside { at < length edges.old.items }
    ensures taken { edges.new.items ≡ take at edges.old.items ++ drop (at + 1) edges.old.items }
    ensures count { vec_len edges.new ≤ vec_len edges.old }
    ensures capacity { vec_capacity edges.new ≡ vec_capacity edges.old }
{
    let _taken = edges.remove(at);
}

/// Changes the points of links.
fn change_bundles(
    edges: &mut Vec<EdgeEntry>,
    names: &mut Vec<NameEntry>,
    gone: &[u32],
    bundles: Vec<Bundle>,
)
    requires ascending { IsStrictlySortedBy edge_cmp edges.old.items }
    requires gone_ascends { IsStrictlySortedBy nat_cmp gone.now }
    requires bundles_ascend { IsStrictlySortedBy bundle_cmp bundles.items }
    requires edges_take { EdgesCanTake edges.old.items bundles.items }
    requires names_take { NamesCanTake names.old.items bundles.items }
    ensures edges { AreFrom edge_key (IsEdgeBundled gone.now bundles.items) edges.old.items edges.new.items }
    ensures names { AreBeside (IsNameBundled gone.now bundles.items) names.old.items names.new.items }
    ensures count { vec_len edges.new ≡ vec_len edges.old }
    ensures capacity { vec_capacity edges.new ≡ vec_capacity edges.old }
{
    for bundle in bundles {
        change_bundle(edges, names, gone, bundle);
    }
}

/// Changes the points of a link.
fn change_bundle(
    edges: &mut Vec<EdgeEntry>,
    names: &mut Vec<NameEntry>,
    gone: &[u32],
    bundle: Bundle,
)
    requires ascending { IsStrictlySortedBy edge_cmp edges.old.items }
    requires gone_ascends { IsStrictlySortedBy nat_cmp gone.now }
    requires edges_take { EdgesCanTake edges.old.items (bundle ∷ []) }
    requires names_take { NamesCanTake names.old.items (bundle ∷ []) }
    ensures edges { AreFrom edge_key (IsEdgeBundled gone.now (bundle ∷ [])) edges.old.items edges.new.items }
    ensures names { AreBeside (IsNameBundled gone.now (bundle ∷ [])) names.old.items names.new.items }
    ensures count { vec_len edges.new ≡ vec_len edges.old }
    ensures capacity { vec_capacity edges.new ≡ vec_capacity edges.old }
{
    match bundle.key {
        LinkKey::Edge(edge) => change_edge(edges, edge, gone, bundle),
        LinkKey::Name(at) => change_name(names, at, gone, bundle),
    }
}

/// Changes the points of the edge of the bundle.
fn change_edge(edges: &mut Vec<EdgeEntry>, edge: u32, gone: &[u32], bundle: Bundle)
    requires ascending { IsStrictlySortedBy edge_cmp edges.old.items }
    requires gone_ascends { IsStrictlySortedBy nat_cmp gone.now }
    requires take { EdgesCanTake edges.old.items (bundle ∷ []) }
    requires key { bundle.key ≡ EdgeKey edge }
    ensures edges { AreFrom edge_key (IsEdgeBundled gone.now (bundle ∷ [])) edges.old.items edges.new.items }
    ensures count { vec_len edges.new ≡ vec_len edges.old }
    ensures capacity { vec_capacity edges.new ≡ vec_capacity edges.old }
{
    match edges.binary_search_by_key(&edge, |entry| entry.edge) {
        Ok(at) => change_points(&mut edges[at], gone, bundle),
        Err(_) => {}
    }
}

/// Changes the points of the edge.
fn change_points(entry: &mut EdgeEntry, gone: &[u32], bundle: Bundle)
    requires gone_ascends { IsStrictlySortedBy nat_cmp gone.now }
    requires take { CanTake entry.old.points bundle.arriving.items }
    ensures edge { entry.new.edge ≡ entry.old.edge }
    ensures points { entry.new.points.items ≡ points_left gone.now entry.old.points.items ++ bundle.arriving.items }
{
    entry.points.change(gone, bundle.arriving);
}

/// Changes the points of the outer name of the bundle.
fn change_name(names: &mut Vec<NameEntry>, at: u32, gone: &[u32], bundle: Bundle)
    requires gone_ascends { IsStrictlySortedBy nat_cmp gone.now }
    requires take { NamesCanTake names.old.items (bundle ∷ []) }
    requires key { bundle.key ≡ NameKey at }
    ensures { AreBeside (IsNameBundled gone.now (bundle ∷ [])) names.old.items names.new.items }
{
    if let Some(entry) = names.get_mut(at as usize) {
        change_points_of_name(entry, gone, bundle);
    }
}

/// Changes the points of the outer name.
fn change_points_of_name(entry: &mut NameEntry, gone: &[u32], bundle: Bundle)
    requires gone_ascends { IsStrictlySortedBy nat_cmp gone.now }
    requires take { CanTake entry.old.points bundle.arriving.items }
    ensures { entry.new.points.items ≡ points_left gone.now entry.old.points.items ++ bundle.arriving.items }
{
    entry.points.change(gone, bundle.arriving);
}

/// Puts edges behind the others, where there is room for them.
fn push_edges(edges: &mut Vec<EdgeEntry>, used: Vec<EdgeEntry>)
    requires room { vec_len edges.old + length used.items ≤ vec_capacity edges.old }
    ensures { edges.new.items ≡ edges.old.items ++ used.items }
{
    for entry in used {
        edges.push_reserved(entry);
    }
}
