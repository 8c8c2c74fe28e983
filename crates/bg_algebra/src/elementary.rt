//! Elementary bigraphs, from which the engine makes others by composition and products. (Milner's substitutions and
//! symmetries are not among them: names are joined and closed by products and `close`, and regions keep their order.)
ghost use Rattle.std.specs.Prelude.{◌≡◌, ◌<◌, ◌-◌, ◌^◌, List, [], ◌∷◌, false, length, map, IfOk};
ghost use Rattle.std.specs.List.Sorted.{IsStrictlySortedBy};
ghost use Rattle.bg_base.specs.declared.names.Place.TheVariants.{Region};
ghost use Rattle.bg_base.specs.declared.names.Link.TheVariants.{Outer};
ghost use Rattle.bg_base.specs.declared.signature.Control.{Control};
ghost use Rattle.bg_base.specs.Order.{name_cmp};
ghost use Rattle.bg_base.specs.Bigraph.{IsValid, IsValidUnder, arity_of, is_atomic_control};
ghost use Rattle.bg_base.specs.Elementary as elementary;

use bg_base::{Big, InnerRow, Link, LinkVec, Name, NodeRow, Place, PortLinks};
use bg_link::name_set;
use bg_lists::{Duplicate, Mem, Rows, copies};
use std::alloc::Global;

/// Nothing at all: the identity of the interface without places and names. Takes no memory.
pub fn empty(alloc: Global) -> Big
    ensures value { result ≡ elementary.empty }
    ensures valid { IsValid result }
    ensures fits { (signature : List Control) → IsValidUnder signature result }
{
    bare(alloc, 0)
}

/// One region with nothing in it (Milner, chapter 3). Takes no memory.
pub fn barren(alloc: Global) -> Big
    ensures value { result ≡ elementary.barren }
    ensures valid { IsValid result }
    ensures fits { (signature : List Control) → IsValidUnder signature result }
{
    bare(alloc, 1)
}

/// So many regions, and nothing else.
fn bare(alloc: Global, regions: u32) -> Big
    ensures { result ≡ record { nodes = []; edges = []; sites = []; inner = []; regions = regions; outer = [] } }
{
    Big {
        nodes: Rows::from_vec(Vec::new(alloc)),
        edges: Rows::from_vec(Vec::new(alloc)),
        sites: Rows::from_vec(Vec::new(alloc)),
        inner: Rows::from_vec(Vec::new(alloc)),
        regions,
        outer: Rows::from_vec(Vec::new(alloc)),
    }
}

/// The identity of the interface with `width` places and these names (Milner, chapter 2): site `i` in region `i`, and
/// each inner name tied to the same outer name. The names ascend, each once. Costs time and memory in proportion to the
/// width and the names.
pub fn identity(alloc: Global, width: u32, names: &[Name]) -> Mem<Big>
    requires few_places { width < 2 ^ 32 - 1 }
    requires few_names { length names.now < 2 ^ 32 - 1 }
    requires ascending { IsStrictlySortedBy name_cmp names.now }
    ensures value { IfOk result (λ big. big ≡ elementary.identity width names.now) }
    ensures valid { IfOk result IsValid }
    ensures fits { (signature : List Control) → IfOk result (IsValidUnder signature) }
{
    Ok(Big {
        nodes: Rows::from_vec(Vec::new(alloc)),
        edges: Rows::from_vec(Vec::new(alloc)),
        sites: sites_in_regions(alloc, width)?,
        inner: tied_to_themselves(alloc, names)?,
        regions: width,
        outer: Rows::from_vec(copies(alloc, names)?),
    })
}

/// Site `i` in region `i`.
fn sites_in_regions(alloc: Global, width: u32) -> Mem<Rows<Place>>
    requires { width < 2 ^ 32 - 1 }
    ensures { IfOk result (λ sites. sites ≡ map Region (elementary.counted 0 width)) }
{
    let mut sites = Vec::new(alloc);
    for region in 0..width {
        sites.push(Place::Region(region))?;
    }
    Ok(Rows::from_vec(sites))
}

/// Each inner name with the outer name that is the same as its link.
fn tied_to_themselves(alloc: Global, names: &[Name]) -> Mem<Rows<InnerRow>>
    requires { length names.now < 2 ^ 32 - 1 }
    ensures { IfOk result (λ rows. rows ≡ map elementary.row_to_itself names.now) }
{
    let mut rows = Vec::new(alloc);
    for name in names {
        rows.push(InnerRow {
            name: name.copy(alloc)?,
            link: Link::Outer(name.copy(alloc)?),
        })?;
    }
    Ok(Rows::from_vec(rows))
}

/// One region with `width` sites in it (Milner, chapter 3): it makes one region of many. Costs time and memory in
/// proportion to the width.
pub fn merger(alloc: Global, width: u32) -> Mem<Big>
    requires few { width < 2 ^ 32 - 1 }
    ensures value { IfOk result (λ big. big ≡ elementary.merger width) }
    ensures valid { IfOk result IsValid }
    ensures fits { (signature : List Control) → IfOk result (IsValidUnder signature) }
{
    Ok(Big {
        nodes: Rows::from_vec(Vec::new(alloc)),
        edges: Rows::from_vec(Vec::new(alloc)),
        sites: sites_in_one_region(alloc, width)?,
        inner: Rows::from_vec(Vec::new(alloc)),
        regions: 1,
        outer: Rows::from_vec(Vec::new(alloc)),
    })
}

/// So many sites in region 0.
fn sites_in_one_region(alloc: Global, width: u32) -> Mem<Rows<Place>>
    requires { width < 2 ^ 32 - 1 }
    ensures { IfOk result (λ sites. sites ≡ map (λ site. Region 0) (elementary.counted 0 width)) }
{
    let mut sites = Vec::new(alloc);
    for _site in 0..width {
        sites.push(Place::Region(0))?;
    }
    Ok(Rows::from_vec(sites))
}

/// Outer names to which nothing is tied, and no place. The names ascend, each once. Costs time and memory in proportion
/// to the names.
pub fn idle(alloc: Global, names: &[Name]) -> Mem<Big>
    requires few { length names.now < 2 ^ 32 - 1 }
    requires ascending { IsStrictlySortedBy name_cmp names.now }
    ensures value { IfOk result (λ big. big ≡ elementary.idle names.now) }
    ensures valid { IfOk result IsValid }
    ensures fits { (signature : List Control) → IfOk result (IsValidUnder signature) }
{
    Ok(Big {
        nodes: Rows::from_vec(Vec::new(alloc)),
        edges: Rows::from_vec(Vec::new(alloc)),
        sites: Rows::from_vec(Vec::new(alloc)),
        inner: Rows::from_vec(Vec::new(alloc)),
        regions: 0,
        outer: Rows::from_vec(copies(alloc, names)?),
    })
}

/// A node alone in a region with a site in it (Milner, chapter 3: ion). Its ports are tied to the names in their order,
/// which may repeat. Costs time n log n, and memory n, in the number of names.
pub fn ion(alloc: Global, control: u32, node: u32, names: &[Name]) -> Mem<Big>
    requires few { length names.now < 2 ^ 32 - 1 }
    ensures value { IfOk result (λ big. big ≡ elementary.ion control node names.now) }
    ensures valid { IfOk result IsValid }
    ensures fits { (signature : List Control) → control < length signature → length names.now ≡ arity_of signature control
        → is_atomic_control signature control ≡ false → IfOk result (IsValidUnder signature) }
{
    let mut sites = Vec::new(alloc);
    sites.push(Place::Node(node))?;
    let whole = lone_node(alloc, control, node, names, Rows::from_vec(sites))?;
    Ok(whole)
}

/// A node alone in a region with nothing in it (Milner, chapter 3: atom). Its ports are tied to the names in their
/// order, which may repeat. Costs time n log n, and memory n, in the number of names.
pub fn atom(alloc: Global, control: u32, node: u32, names: &[Name]) -> Mem<Big>
    requires few { length names.now < 2 ^ 32 - 1 }
    ensures value { IfOk result (λ big. big ≡ elementary.atom control node names.now) }
    ensures valid { IfOk result IsValid }
    ensures fits { (signature : List Control) → control < length signature → length names.now ≡ arity_of signature control
        → IfOk result (IsValidUnder signature) }
{
    let whole = lone_node(alloc, control, node, names, Rows::from_vec(Vec::new(alloc)))?;
    Ok(whole)
}

/// A node alone in a region, with these sites.
fn lone_node(alloc: Global, control: u32, node: u32, names: &[Name], sites: Rows<Place>) -> Mem<Big>
    requires few { length names.now < 2 ^ 32 - 1 }
    ensures { IfOk result (λ big. big ≡ elementary.lone_node control node names.now sites) }
{
    let mut nodes = Vec::new(alloc);
    nodes.push(NodeRow {
        id: node,
        control,
        parent: Place::Region(0),
        links: PortLinks::from_small_vec(open_links(alloc, names)?),
    })?;
    Ok(Big {
        nodes: Rows::from_vec(nodes),
        edges: Rows::from_vec(Vec::new(alloc)),
        sites,
        inner: Rows::from_vec(Vec::new(alloc)),
        regions: 1,
        outer: name_set(copies(alloc, names)?)?,
    })
}

/// The names as links.
fn open_links(alloc: Global, names: &[Name]) -> Mem<LinkVec>
    ensures { IfOk result (λ made. made.items ≡ map Outer names.now) }
{
    let mut made = LinkVec::new(alloc);
    for name in names {
        made.push(Link::Outer(name.copy(alloc)?))?;
    }
    Ok(made)
}
