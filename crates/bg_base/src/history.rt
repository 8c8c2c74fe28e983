//! Steps of a run, and the journals that list them.
use bg_lists::{Duplicate, Mem, Rows};
use std::alloc::Global;

/// A map of a pattern's nodes, in ascending order, to nodes of a host; or of sites to sites.
pub type Map = Rows<u32>;

/// A rule, by its number, at an occurrence of its redex.
#[derive(Debug, Drop, PartialEq, Eq)]
pub struct Step {
    /// Counted from 0.
    pub rule: u32,
    pub map: Map,
}

/// A step that a worker made: the worker, the rule, and the occurrence.
#[derive(Debug, Drop, PartialEq, Eq)]
pub struct Entry {
    /// Counted from 0.
    pub worker: u32,
    /// Counted from 0.
    pub rule: u32,
    pub map: Map,
}

/// The steps of a run, the earliest first.
pub type Journal = Rows<Entry>;

impl Duplicate for Step {
    fn copy(&self, alloc: Global) -> Mem<Step> {
        Ok(Step {
            rule: self.rule,
            map: self.map.copy(alloc)?,
        })
    }
}

impl Duplicate for Entry {
    fn copy(&self, alloc: Global) -> Mem<Entry> {
        Ok(Entry {
            worker: self.worker,
            rule: self.rule,
            map: self.map.copy(alloc)?,
        })
    }
}
