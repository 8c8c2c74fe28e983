//! The first pass over a listing: its form and its limits.
ghost use Rattle.std.specs.Prelude.{◌≡◌, ◌+◌, drop, IfOk};
ghost use Rattle.bg_listing.specs.Lines.{signature_at, big_at};
ghost use Rattle.bg_listing.specs.Answers.{GivesLines};
ghost use Rattle.bg_listing.specs.Verdict.{IsAt, LeavesRoom, SignatureLeft, rows_of};

use crate::cursor::Cursor;
use crate::fault::LineFault;
use crate::lines::{count, section};
use bg_base::limits::{MOST_CONTROLS, MOST_ROWS};
use bg_base::{Big, Control, InnerRow, Name, NodeRow, Place, Signature};
use bg_lists::Rows;
use std::alloc::Global;

/// The rows of the signature at the cursor, whatever labels they repeat, and the bytes behind it.
pub(crate) fn control_rows_at<'a>(
    alloc: Global,
    bytes: &'a [u8],
    at: Cursor,
) -> Result<(Rows<Control>, &'a [u8]), LineFault>
    requires { IsAt bytes.now at }
    ensures read { GivesLines (λ x. (x.0, x.1.now)) result (signature_at (drop at.offset bytes.now)) }
    ensures left { IfOk result (λ x. SignatureLeft bytes.now at x.0 x.1.now) }
{
    let (_, front) = bytes.split_at(at.offset as usize);
    control_rows(alloc, front)
}

/// The rows of the bigraph at the cursor, whether it is valid or not, and the bytes behind it.
pub(crate) fn big_rows_at<'a>(
    alloc: Global,
    bytes: &'a [u8],
    at: Cursor,
    signature: &Signature,
) -> Result<(Big, &'a [u8]), LineFault>
    requires { IsAt bytes.now at }
    ensures read { GivesLines (λ x. (x.0, x.1.now)) result (big_at signature.now (drop at.offset bytes.now)) }
    ensures left { IfOk result (λ x. LeavesRoom bytes.now at x.1.now (5 + rows_of x.0)) }
{
    let (_, front) = bytes.split_at(at.offset as usize);
    big_rows(alloc, signature, front)
}

#[tactic(auto, unfolding(crate::specs::Lines::signature_at))]
fn control_rows(alloc: Global, bytes: &[u8]) -> Result<(Rows<Control>, &[u8]), LineFault>
    ensures { GivesLines (λ x. (x.0, x.1.now)) result (signature_at bytes.now) }
{
    section::<Control>(alloc, &(), bytes, b"signature ", MOST_CONTROLS)
}

#[tactic(auto, unfolding(crate::specs::Lines::big_at))]
fn big_rows<'a>(
    alloc: Global,
    signature: &Signature,
    bytes: &'a [u8],
) -> Result<(Big, &'a [u8]), LineFault>
    ensures { GivesLines (λ x. (x.0, x.1.now)) result (big_at signature.now bytes.now) }
{
    let (regions, rest) = count(bytes, b"bigraph ", MOST_ROWS)?;
    let (sites, rest) = section::<Place>(alloc, &(), rest, b"sites ", MOST_ROWS)?;
    let (inner, rest) = section::<InnerRow>(alloc, &(), rest, b"inner ", MOST_ROWS)?;
    let (outer, rest) = section::<Name>(alloc, &(), rest, b"outer ", MOST_ROWS)?;
    let (edges, rest) = section::<u32>(alloc, &(), rest, b"edges ", MOST_ROWS)?;
    let (nodes, rest) = section::<NodeRow>(alloc, signature, rest, b"nodes ", MOST_ROWS)?;
    Ok((
        Big {
            nodes,
            edges,
            sites,
            inner,
            regions,
            outer,
        },
        rest,
    ))
}
