//! The links of a node's ports.
ghost use Rattle.std.specs.Prelude.{◌≡◌, ◌-◌, ◌^◌, ◌<◌, length, take, IfOk};

use crate::Link;
use bg_lists::{Duplicate, Mem};
use smallvec::SmallVec;
use std::alloc::Global;
use std::fmt;
use std::marker::Model;
use std::ops::DerefSlice;

/// Links in a row; up to two lie in the value itself.
pub type LinkVec = SmallVec<Link, 2>;

/// The links of a node's ports, in the order of the ports; up to two lie in the value itself.
/// A contract sees the list of the links.
#[derive(Drop)]
pub struct PortLinks {
    items: LinkVec,
}

impl Model for PortLinks {
    ghost use Rattle.std.specs.Prelude.{List, length, ◌<◌, ◌-◌, ◌^◌};
    ghost use Rattle.bg_base.specs.declared.names.Link.{Link};

    ghost Value = { List Link };

    ghost view = { λ links. links.items.items };

    ghost invariant = { λ links. length links.items.items < 2 ^ 32 - 1 };
}

impl PortLinks {
    /// The list of these links, fewer than 4,294,967,295. Takes no memory.
    pub fn from_small_vec(items: LinkVec) -> PortLinks
        requires { length items.items < 2 ^ 32 - 1 }
        ensures { result ≡ items.items }
    {
        PortLinks { items }
    }

    /// The links.
    pub fn as_slice(&self) -> &[Link]
        ensures same { result.now ≡ self.now }
        ensures small { length result.now < 2 ^ 32 - 1 }
    {
        self.items.as_slice()
    }

    /// The number of links, which is the number of ports.
    pub fn len(&self) -> u32
        ensures count { result ≡ length self.now }
        ensures small { result < 2 ^ 32 - 1 }
    {
        self.items.as_slice().len() as u32
    }
}

impl DerefSlice for PortLinks {
    type Elem = Link;

    ghost use Rattle.std.specs.Prelude.{◌≡◌};

    ghost deref_gives = { λ links xs. xs ≡ links };

    fn deref(&self) -> &[Link] {
        self.items.as_slice()
    }
}

impl PartialEq for PortLinks {
    ghost use Rattle.std.specs.Cmp.Lexicographic.{pointwise, lists_per};
    ghost use Rattle.bg_base.specs.contracts.names.LinkPartialEq.TheImpl as of_link;
    ghost use Rattle.bg_base.specs.contracts.names.LinkPartialEq.TheImpl.Laws.{laws-law};

    ghost eq = { pointwise of_link.ghosts.eq };

    ghost laws = { lists_per laws-law };

    fn eq(&self, other: &Self) -> bool {
        self.as_slice() == other.as_slice()
    }
}

impl Eq for PortLinks {
    ghost use Rattle.std.specs.Cmp.Lexicographic.{lists_equiv};
    ghost use Rattle.bg_base.specs.contracts.names.LinkEq.TheImpl.Laws.{laws-law};

    ghost laws = { lists_equiv laws-law };
}

impl Duplicate for PortLinks {
    fn copy(&self, alloc: Global) -> Mem<PortLinks> {
        let items = link_copies(alloc, self.as_slice())?;
        Ok(PortLinks::from_small_vec(items))
    }
}

/// Copies of all links, in their order.
fn link_copies(alloc: Global, links: &[Link]) -> Mem<LinkVec>
    ensures { IfOk result (λ made. made.items ≡ links.now) }
{
    let mut made = LinkVec::new(alloc);
    for link in links {
        made.push(link.copy(alloc)?)?;
    }
    Ok(made)
}

impl fmt::Debug for PortLinks {
    fn fmt<W: fmt::Write>(&self, f: &mut fmt::Formatter<W>) -> fmt::Result {
        f.debug_list().entries(self.as_slice()).finish()
    }
}
