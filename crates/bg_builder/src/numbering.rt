//! Whether the numbers of the bigraphs on a stack follow each other, by their first and last rows.
ghost use Rattle.std.specs.Prelude.{◌≡◌, ◌≤◌, option_copied, reverse, slice_get};
ghost use Rattle.bg_builder.specs.Frames.{laid_rows, rows_below, top_of, bigs_of, AreKept, BeginsWithin, stack_of};
ghost use Rattle.bg_builder.specs.Numbers as numbers;
ghost use Rattle.bg_builder.specs.Stack as stack;

use crate::frames::Frame;
use crate::lists::Lists;
use crate::tails::items_between;
use bg_base::NodeRow;

/// Whether there are two, and the numbers of the topmost one follow those of the second.
pub(crate) fn two_follow(lists: &Lists, frames: &Vec<Frame>) -> bool
    requires kept { AreKept (laid_rows lists.now) (reverse frames.now.items) }
    ensures { result ≡ stack.two_follow (stack_of lists.now frames.now.items) }
{
    match frames.as_slice() {
        [.., f, g] => these_follow(lists, f, g),
        _ => false,
    }
}

/// Whether the numbers of the topmost bigraph follow those of the second.
fn these_follow(lists: &Lists, f: &Frame, g: &Frame) -> bool
    requires g_within { BeginsWithin (laid_rows lists.now) g.now }
    requires f_within { BeginsWithin (rows_below (laid_rows lists.now) g.now) f.now }
    ensures { result ≡ numbers.numbers_follow (top_of (rows_below (laid_rows lists.now) g.now) f.now) (top_of (laid_rows lists.now) g.now) }
{
    let left = items_between(&lists.nodes, f.nodes, g.nodes);
    let (_, right) = lists.nodes.as_slice().split_at(g.nodes);
    let left_edges = items_between(&lists.edges, f.edges, g.edges);
    let (_, right_edges) = lists.edges.as_slice().split_at(g.edges);
    nodes_follow(left, right) && is_below(left_edges.last(), right_edges.first())
}

/// Whether there is one, and its edges lie behind that one.
pub(crate) fn top_behind(lists: &Lists, frames: &Vec<Frame>, edge: u32) -> bool
    requires kept { AreKept (laid_rows lists.now) (reverse frames.now.items) }
    ensures { result ≡ stack.top_behind edge (stack_of lists.now frames.now.items) }
{
    match frames.as_slice() {
        [.., f] => lies_behind(lists, f, edge),
        _ => false,
    }
}

/// Whether the edges of the topmost bigraph lie behind that one.
fn lies_behind(lists: &Lists, f: &Frame, edge: u32) -> bool
    requires within { BeginsWithin (laid_rows lists.now) f.now }
    ensures { result ≡ numbers.lies_behind edge (top_of (laid_rows lists.now) f.now) }
{
    let (_, edges) = lists.edges.as_slice().split_at(f.edges);
    match edges.first() {
        Some(other) => edge < *other,
        None => true,
    }
}

fn nodes_follow(first: &[NodeRow], second: &[NodeRow]) -> bool
    ensures { result ≡ numbers.is_below (numbers.row_number (numbers.last_of first.now)) (numbers.row_number (slice_get second.now 0)) }
{
    match (first.last(), second.first()) {
        (Some(left), Some(right)) => left.id < right.id,
        (Some(_), None) => true,
        (None, _) => true,
    }
}

/// Whether the one is below the other, where both are there.
fn is_below(left: Option<&u32>, right: Option<&u32>) -> bool
    ensures { result ≡ numbers.is_below (option_copied left.entry) (option_copied right.entry) }
{
    match (left, right) {
        (Some(left), Some(right)) => left < right,
        (Some(_), None) => true,
        (None, _) => true,
    }
}
