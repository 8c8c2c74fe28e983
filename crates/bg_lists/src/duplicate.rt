//! Copies that take an allocator.
ghost use Rattle.std.specs.Prelude.{◌≡◌, IfOk};

use crate::Mem;
use std::alloc::Global;

/// A value that can be copied, where there is memory for the copy.
pub trait Duplicate: Drop + Sized {
    /// An equal value. Costs time and memory in proportion to the value.
    fn copy(&self, alloc: Global) -> Mem<Self>
        ensures { IfOk result (λ made. made ≡ self.now) };
}

impl Duplicate for u32 {
    fn copy(&self, _alloc: Global) -> Mem<u32> {
        Ok(*self)
    }
}
