//! Frames of the bigraphs on a stack.
ghost use Rattle.std.specs.Prelude.{◌≡◌, ◌≤◌, ◌∷◌, length, drop, [], reverse, IfSome, IsSome, OnOk, OnErr};

use bg_base::{Link, Name};
use bg_lists::{Mem, OutOfMemory};
use std::collections::{BTreeMap, BTreeSet};

/// What a bigraph on a stack has beside its rows: where these begin in the lists of the stack (they end where those of
/// the next one begin), its inner and outer names in search trees, and the number of its regions.
#[derive(Drop)]
pub(crate) struct Frame {
    pub(crate) nodes: usize,
    pub(crate) edges: usize,
    pub(crate) sites: usize,
    pub(crate) inner: BTreeMap<Name, Link>,
    pub(crate) outer: BTreeSet<Name>,
    pub(crate) regions: u32,
}

/// Takes the topmost frame, which is the last one.
pub(crate) fn take_one(frames: &mut Vec<Frame>) -> Option<Frame>
    ensures taken { IfSome result (λ g. reverse frames.old.items ≡ g ∷ reverse frames.new.items) }
    ensures there { 1 ≤ length frames.old.items → IsSome result }
{
    frames.pop()
}

/// Takes the two topmost frames, the second and the topmost one.
pub(crate) fn take_two(frames: &mut Vec<Frame>) -> Option<(Frame, Frame)>
    ensures taken { IfSome result (λ two. reverse frames.old.items ≡ two.1 ∷ two.0 ∷ reverse frames.new.items) }
    ensures there { 2 ≤ length frames.old.items → IsSome result }
{
    let g = take_one(frames)?;
    let f = take_one(frames)?;
    Some((f, g))
}

/// Puts the frame on top.
pub(crate) fn put_one(frames: &mut Vec<Frame>, frame: Frame) -> Mem<()>
    ensures { OnOk result (reverse frames.new.items ≡ frame ∷ reverse frames.old.items) }
{
    match frames.push(frame) {
        Ok(()) => Ok(()),
        Err(_) => Err(OutOfMemory),
    }
}

/// Takes all frames off where memory was wanting, and tells what was told.
pub(crate) fn or_none(frames: &mut Vec<Frame>, done: Mem<()>) -> Mem<()>
    ensures told { result ≡ done }
    ensures kept { OnOk result (frames.new ≡ frames.old) }
    ensures emptied { OnErr result (frames.new.items ≡ []) }
{
    if done.is_err() {
        frames.clear();
    }
    done
}

/// The second and the topmost frame.
pub(crate) fn top_two(frames: &Vec<Frame>) -> (&Frame, &Frame)
    requires there { 2 ≤ length frames.now.items }
    ensures { reverse frames.now.items ≡ result.1.now ∷ result.0.now ∷ drop 2 (reverse frames.now.items) }
{
    match frames.as_slice() {
        [.., f, g] => (f, g),
        _ => unreachable!(),
    }
}
