//! How workers find legal steps.
ghost use Rattle.std.specs.Prelude.{IfOk};
ghost use Rattle.bg_cond.specs.Steps.{AreFirstLegal};

use crate::commits::View;
use crate::legal::steps;
use bg_base::Step;
use bg_lists::Mem;
use bg_rules::System;
use std::alloc::Global;

/// As many legal steps, from the first on, may be picked.
pub const MOST_CANDIDATES: u32 = 4_096;

/// Who lists the legal steps of a view. A finder may keep what it has found from one view to the next.
pub trait Finder {
    /// The first `most` legal steps at the view's host, by rule and then by map. It refuses for want of memory alone.
    fn steps(&mut self, alloc: Global, system: &System, view: &View, most: u32) -> Mem<Vec<Step>>
        ensures { IfOk result (λ found. AreFirstLegal most view.now.host system.now.rules found.items) };
}

/// A finder that lists the steps anew at each view, by [`steps`](crate::steps).
#[derive(Clone, Copy, Debug)]
pub struct PlainFinder;

impl Finder for PlainFinder {
    fn steps(&mut self, alloc: Global, system: &System, view: &View, most: u32) -> Mem<Vec<Step>> {
        steps(alloc, &view.host, system, most)
    }
}
