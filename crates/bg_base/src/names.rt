//! Names, places and links.
ghost use Rattle.std.specs.Prelude.{◌≡◌, Some, refl};
ghost use Rattle.std.specs.Cmp.{partial_order_from_agreeing_total};
ghost use Rattle.bg_base.specs.Order.{name_cmp};
ghost use Rattle.bg_base.specs.OrderLaws.{name_cmp_total, name_ties};
ghost use Rattle.bg_base.specs.declared.names.Link.TheVariants.{Edge};

use crate::Ident;
use bg_lists::{Duplicate, Mem};
use std::alloc::Global;
use std::cmp::Ordering;

/// A name of an interface. Names ascend in this order: plain names by their bytes, then ports by node and index,
/// then opened edges by number.
#[derive(Debug, Drop, PartialEq, Eq)]
pub enum Name {
    /// A name that a user wrote.
    Plain(Ident),
    /// The name of a port of a node: the node, and the index of the port, counted from 0. A parameter of a match has
    /// such names, one for each port, so that the context can tie them; the node need not be in the bigraph at hand.
    Port(u32, u32),
    /// The name that stands for an edge, by its number, where a part of a bigraph is cut out that the edge leaves.
    Opened(u32),
}

impl PartialOrd for Name {
    ghost partial_cmp = { λ x y. Some (name_cmp x y) };

    ghost laws = { partial_order_from_agreeing_total name_cmp name_cmp_total (λ x y. refl) name_ties };

    fn partial_cmp(&self, other: &Self) -> Option<Ordering> {
        Some(self.cmp(other))
    }
}

impl Ord for Name {
    ghost cmp = { name_cmp };

    ghost total = { name_cmp_total };

    ghost matches_partial_cmp = { λ x y. refl };

    ghost matches_eq = { name_ties };

    fn cmp(&self, other: &Self) -> Ordering {
        match (self, other) {
            (Name::Plain(x), Name::Plain(y)) => x.cmp(y),
            (Name::Plain(_), _) => Ordering::Less,
            (_, Name::Plain(_)) => Ordering::Greater,
            (Name::Port(v, i), Name::Port(w, j)) => v.cmp(w).then(i.cmp(j)),
            (Name::Port(_, _), Name::Opened(_)) => Ordering::Less,
            (Name::Opened(_), Name::Port(_, _)) => Ordering::Greater,
            (Name::Opened(d), Name::Opened(e)) => d.cmp(e),
        }
    }
}

impl Duplicate for Name {
    fn copy(&self, alloc: Global) -> Mem<Name> {
        match self {
            Name::Plain(word) => Ok(Name::Plain(word.copy(alloc)?)),
            Name::Port(node, index) => Ok(Name::Port(*node, *index)),
            Name::Opened(edge) => Ok(Name::Opened(*edge)),
        }
    }
}

/// Where a node or a site lies: in a node or in a region, by its number.
#[derive(Clone, Copy, Debug, PartialEq, Eq, PartialOrd, Ord)]
pub enum Place {
    Node(u32),
    Region(u32),
}

impl Duplicate for Place {
    fn copy(&self, _alloc: Global) -> Mem<Place> {
        Ok(*self)
    }
}

/// What a port or an inner name is tied to: an edge, by its number, or an outer name.
#[derive(Debug, Drop, PartialEq, Eq)]
pub enum Link {
    Edge(u32),
    Outer(Name),
}

impl Default for Link {
    fn default() -> Link
        ensures { result ≡ Edge 0 }
    {
        Link::Edge(0)
    }
}

impl Duplicate for Link {
    fn copy(&self, alloc: Global) -> Mem<Link> {
        match self {
            Link::Edge(edge) => Ok(Link::Edge(*edge)),
            Link::Outer(name) => Ok(Link::Outer(name.copy(alloc)?)),
        }
    }
}
