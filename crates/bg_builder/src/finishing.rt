//! The topmost bigraph of a stack as lists of rows.
ghost use Rattle.std.specs.Prelude.{◌≡◌, ◌≤◌, drop, length, IfOk};
ghost use Rattle.bg_base.specs.Bigraph.{IsValid};
ghost use Rattle.bg_builder.specs.Frames.{laid_rows, top_of, BeginsWithin};

use crate::frames::Frame;
use crate::lists::Lists;
use crate::tables::{inner_list, outer_list};
use bg_base::Big;
use bg_lists::{Mem, Rows};
use std::alloc::Global;

/// The topmost bigraph.
pub(crate) fn taken_off(alloc: Global, lists: Lists, frame: Frame) -> Mem<Big>
    requires within { BeginsWithin (laid_rows lists) frame }
    ensures { IfOk result (λ big. big ≡ top_of (laid_rows lists) frame) }
{
    Ok(Big {
        nodes: Rows::try_from_vec(behind(lists.nodes, frame.nodes)?)?,
        edges: Rows::try_from_vec(behind(lists.edges, frame.edges)?)?,
        sites: Rows::try_from_vec(behind(lists.sites, frame.sites)?)?,
        inner: Rows::try_from_vec(inner_list(alloc, frame.inner)?)?,
        regions: frame.regions,
        outer: Rows::try_from_vec(outer_list(alloc, frame.outer)?)?,
    })
}

/// The items from that place on. Takes no memory where these are all.
fn behind<T: Drop>(mut items: Vec<T>, start: usize) -> Mem<Vec<T>>
    requires within { start ≤ length items.items }
    ensures { IfOk result (λ found. found.items ≡ drop start items.items) }
{
    if start == 0 {
        return Ok(items);
    }
    let found = items.split_off(start)?;
    Ok(found)
}
