//! Products of the two topmost bigraphs of a stack: side by side, with names apart or shared, and in one region.
ghost use Rattle.std.specs.Prelude.{◌≡◌, ◌∷◌, true, reverse, IfOk, OnOk};
ghost use Rattle.bg_base.specs.Products as product;
ghost use Rattle.bg_builder.specs.Frames.{laid_rows, rows_below, top_of, AreKept, AreTwo, AreInOne, IsLaid, stack_of, IsStack};
ghost use Rattle.bg_builder.specs.Stack.{top, second, others, two_follow};

use crate::frames::{Frame, put_one, take_two};
use crate::lists::Lists;
use crate::tables::{inner_of_both, outer_of_both};
use crate::tails::{merge_nodes, merge_sites, raise_nodes, raise_sites};
use bg_lists::{Mem, OutOfMemory};

/// The parallel product of the two topmost bigraphs in their place.
#[tactic(auto, using(crate::proofs::Stacked::two_there, crate::proofs::Stacked::two_of))]
pub(crate) fn put_parallel(lists: &mut Lists, frames: &mut Vec<Frame>) -> Mem<()>
    requires kept { AreKept (laid_rows lists.old) (reverse frames.old.items) }
    requires follow { two_follow (stack_of lists.old frames.old.items) ≡ true }
    requires inner { product.InnerApart (second (stack_of lists.old frames.old.items)) (top (stack_of lists.old frames.old.items)) }
    ensures { OnOk result (IsStack lists.new frames.new.items
        (product.parallel (second (stack_of lists.old frames.old.items)) (top (stack_of lists.old frames.old.items)) ∷ others (stack_of lists.old frames.old.items))) }
{
    let Some((f, g)) = take_two(frames) else {
        unreachable!();
    };
    let whole = beside(lists, f, g)?;
    put_one(frames, whole)?;
    Ok(())
}

/// The tensor product of the two topmost bigraphs in their place.
pub(crate) fn put_tensor(lists: &mut Lists, frames: &mut Vec<Frame>) -> Mem<()>
    requires kept { AreKept (laid_rows lists.old) (reverse frames.old.items) }
    requires follow { two_follow (stack_of lists.old frames.old.items) ≡ true }
    requires inner { product.InnerApart (second (stack_of lists.old frames.old.items)) (top (stack_of lists.old frames.old.items)) }
    requires outer { product.OuterApart (second (stack_of lists.old frames.old.items)) (top (stack_of lists.old frames.old.items)) }
    ensures { OnOk result (IsStack lists.new frames.new.items
        (product.tensor (second (stack_of lists.old frames.old.items)) (top (stack_of lists.old frames.old.items)) ∷ others (stack_of lists.old frames.old.items))) }
{
    put_parallel(lists, frames)?;
    Ok(())
}

/// The second bigraph with the topmost one beside it.
fn beside(lists: &mut Lists, f: Frame, g: Frame) -> Mem<Frame>
    requires two { AreTwo (laid_rows lists.old) g f }
    requires inner { product.InnerApart (top_of (rows_below (laid_rows lists.old) g) f) (top_of (laid_rows lists.old) g) }
    ensures { IfOk result (λ whole. IsLaid (laid_rows lists.new) whole (rows_below (rows_below (laid_rows lists.old) g) f)
        (product.parallel (top_of (rows_below (laid_rows lists.old) g) f) (top_of (laid_rows lists.old) g))) }
{
    let Some(regions) = f.regions.checked_add(g.regions) else {
        return Err(OutOfMemory);
    };
    raise_nodes(&mut lists.nodes, g.nodes, f.regions);
    raise_sites(&mut lists.sites, g.sites, f.regions);
    Ok(Frame {
        nodes: f.nodes,
        edges: f.edges,
        sites: f.sites,
        inner: inner_of_both(f.inner, g.inner)?,
        outer: outer_of_both(f.outer, g.outer)?,
        regions,
    })
}

/// The merge product of the two topmost bigraphs in their place.
#[tactic(auto, using(crate::proofs::Stacked::two_there, crate::proofs::Stacked::two_of))]
pub(crate) fn put_merged(lists: &mut Lists, frames: &mut Vec<Frame>) -> Mem<()>
    requires kept { AreKept (laid_rows lists.old) (reverse frames.old.items) }
    requires follow { two_follow (stack_of lists.old frames.old.items) ≡ true }
    requires inner { product.InnerApart (second (stack_of lists.old frames.old.items)) (top (stack_of lists.old frames.old.items)) }
    ensures { OnOk result (IsStack lists.new frames.new.items
        (product.merge (second (stack_of lists.old frames.old.items)) (top (stack_of lists.old frames.old.items)) ∷ others (stack_of lists.old frames.old.items))) }
{
    let Some((f, g)) = take_two(frames) else {
        unreachable!();
    };
    let whole = in_one(lists, f, g)?;
    put_one(frames, whole)?;
    Ok(())
}

/// The second bigraph and the topmost one in one region.
fn in_one(lists: &mut Lists, f: Frame, g: Frame) -> Mem<Frame>
    requires two { AreTwo (laid_rows lists.old) g f }
    requires inner { product.InnerApart (top_of (rows_below (laid_rows lists.old) g) f) (top_of (laid_rows lists.old) g) }
    ensures { IfOk result (λ whole. IsLaid (laid_rows lists.new) whole (rows_below (rows_below (laid_rows lists.old) g) f)
        (product.merge (top_of (rows_below (laid_rows lists.old) g) f) (top_of (laid_rows lists.old) g))) }
{
    merge_regions(lists, &f, &g);
    Ok(Frame {
        nodes: f.nodes,
        edges: f.edges,
        sites: f.sites,
        inner: inner_of_both(f.inner, g.inner)?,
        outer: outer_of_both(f.outer, g.outer)?,
        regions: 1,
    })
}

/// Puts the roots and sites of both into region 0. Leaves the rows of the second one alone where it has one region, and
/// all where each has.
fn merge_regions(lists: &mut Lists, f: &Frame, g: &Frame)
    requires two { AreTwo (laid_rows lists.old) g.now f.now }
    ensures { AreInOne (laid_rows lists.old) g.now f.now (laid_rows lists.new) }
{
    if f.regions != 1 {
        merge_nodes(&mut lists.nodes, f.nodes);
        merge_sites(&mut lists.sites, f.sites);
    } else if g.regions != 1 {
        merge_nodes(&mut lists.nodes, g.nodes);
        merge_sites(&mut lists.sites, g.sites);
    }
}
