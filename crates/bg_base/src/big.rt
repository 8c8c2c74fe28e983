//! A concrete bigraph, row by row.
use crate::{Link, Name, Place, PortLinks};
use bg_lists::{Duplicate, Mem, Numbered, Rows};
use std::alloc::Global;

/// A node: its number, its control by number in the signature, where it lies, and the links of its ports in order.
#[derive(Debug, Drop, PartialEq, Eq)]
pub struct NodeRow {
    pub id: u32,
    pub control: u32,
    pub parent: Place,
    pub links: PortLinks,
}

/// An inner name and the link that it is tied to.
#[derive(Debug, Drop, PartialEq, Eq)]
pub struct InnerRow {
    pub name: Name,
    pub link: Link,
}

/// A concrete bigraph (Milner, chapter 2), as lists of rows. Site `i` lies in `sites[i]`; the regions are numbered
/// from 0 to `regions` - 1. In a valid bigraph all lists but `sites` strictly ascend, by number or by name.
#[derive(Debug, Drop, PartialEq, Eq)]
pub struct Big {
    pub nodes: Rows<NodeRow>,
    pub edges: Rows<u32>,
    pub sites: Rows<Place>,
    pub inner: Rows<InnerRow>,
    pub regions: u32,
    pub outer: Rows<Name>,
}

impl Numbered for NodeRow {
    ghost number = { λ row. row.id };

    fn number(&self) -> u32 {
        self.id
    }
}

impl Duplicate for NodeRow {
    fn copy(&self, alloc: Global) -> Mem<NodeRow> {
        Ok(NodeRow {
            id: self.id,
            control: self.control,
            parent: self.parent,
            links: self.links.copy(alloc)?,
        })
    }
}

impl Duplicate for InnerRow {
    fn copy(&self, alloc: Global) -> Mem<InnerRow> {
        Ok(InnerRow {
            name: self.name.copy(alloc)?,
            link: self.link.copy(alloc)?,
        })
    }
}

impl Duplicate for Big {
    fn copy(&self, alloc: Global) -> Mem<Big> {
        Ok(Big {
            nodes: self.nodes.copy(alloc)?,
            edges: self.edges.copy(alloc)?,
            sites: self.sites.copy(alloc)?,
            inner: self.inner.copy(alloc)?,
            regions: self.regions,
            outer: self.outer.copy(alloc)?,
        })
    }
}
