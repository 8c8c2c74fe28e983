//! The readers of listings.
ghost use Rattle.std.specs.Prelude.{◌≡◌, ◌+◌, ◌-◌, ◌<◌, ◌≤◌, ◌^◌, ◌++◌, List, ℕ, length, drop, IfOk};
ghost use Rattle.bg_base.specs.Limits.{most_controls};
ghost use Rattle.bg_base.specs.declared.signature.Control.{Control as ControlValue};
ghost use Rattle.bg_base.specs.declared.big.Big.{Big as BigValue};
ghost use Rattle.bg_base.specs.Signatures.{IsSignature};
ghost use Rattle.bg_base.specs.Bigraph.{IsValidUnder};
ghost use Rattle.bg_listing.specs.Spelling.{signature_text, big_text};
ghost use Rattle.bg_listing.specs.Limits.{AreCounted, IsControl, IsReadableSignature, IsReadableBig};
ghost use Rattle.bg_listing.specs.Verdict as verdict;
ghost use Rattle.bg_listing.specs.Verdict.{IsAt, Stands, ReadsBack, AnswersAs, MakesVerdict, signature_verdict, big_verdict, rows_of};

use crate::cursor::{Cursor, cursor_before, line_before};
use crate::fault::{DUPLICATE_LABEL, LineFault, ListingFault};
use crate::first_pass::{big_rows_at, control_rows_at};
use bg_base::limits::MOST_CONTROLS;
use bg_base::{Big, CheckFault, Control, Part, Signature, SignatureFault};
use bg_lists::Rows;
use std::alloc::Global;

/// Reads the signature whose listing stands at the cursor, whatever follows, and the cursor behind it. Where none
/// stands there, `Bad` tells the first line that is not of its form (code 1) or that has a number above its limit
/// (code 2); where there is no such line, the first row whose label stood before (code 9).
/// Linear in the bytes before the end of the listing, but for a look-up of each label among those before.
pub fn read_signature(
    alloc: Global,
    bytes: &[u8],
    at: Cursor,
) -> Result<(Signature, Cursor), ListingFault>
    requires small { length bytes.now < 2 ^ 32 - 1 }
    requires placed { IsAt bytes.now at }
    ensures found { IfOk result (λ x. IsReadableSignature x.0 × Stands bytes.now at (signature_text x.0) x.1) }
    ensures only { (controls : List ControlValue) (rest : List ℕ) → IsReadableSignature controls → drop at.offset bytes.now ≡ signature_text controls ++ rest → ReadsBack bytes.now result controls rest }
    ensures exact { AnswersAs bytes.now result (signature_verdict bytes.now at) }
{
    judged_signature(alloc, bytes, at)
}

/// Reads the bigraph whose listing stands at the cursor, whatever follows, where it is valid under the signature, and
/// the cursor behind it. Else `Bad` tells the first line that is not of its form (code 1) or that has a number above
/// its limit (code 2); where there is no such line, the first row that breaks a rule of bigraphs, with the least code
/// (3 to 7). Linear in the bytes before the end of the listing, but for a look-up of the label of each node and the
/// check.
pub fn read_big(
    alloc: Global,
    bytes: &[u8],
    at: Cursor,
    signature: &Signature,
) -> Result<(Big, Cursor), ListingFault>
    requires small { length bytes.now < 2 ^ 32 - 1 }
    requires placed { IsAt bytes.now at }
    ensures found { IfOk result (λ x. IsReadableBig signature.now x.0 × Stands bytes.now at (big_text signature.now x.0) x.1) }
    ensures only { (big : BigValue) (rest : List ℕ) → IsReadableBig signature.now big → drop at.offset bytes.now ≡ big_text signature.now big ++ rest → ReadsBack bytes.now result big rest }
    ensures exact { AnswersAs bytes.now result (big_verdict signature.now bytes.now at) }
{
    // What a signature keeps, labels that differ among it, is known from here on.
    prove!(signature.len() <= MOST_CONTROLS);
    judged_big(alloc, bytes, at, signature)
}

/// No text is the listing of two signatures, whatever follows.
pub fn signatures_have_one_text()
    ensures { (a b : List ControlValue) (x y : List ℕ) → IsReadableSignature a → IsReadableSignature b → signature_text a ++ x ≡ signature_text b ++ y → (a ≡ b) × (x ≡ y) }
{}

/// No text is the listing of two bigraphs under one signature, whatever follows.
pub fn bigraphs_have_one_text()
    ensures { (signature : List ControlValue) (a b : BigValue) (x y : List ℕ) → IsSignature signature → IsReadableBig signature a → IsReadableBig signature b
        → big_text signature a ++ x ≡ big_text signature b ++ y → (a ≡ b) × (x ≡ y) }
{}

#[tactic(auto, unfolding(crate::specs::Verdict::signature_verdict))]
fn judged_signature(
    alloc: Global,
    bytes: &[u8],
    at: Cursor,
) -> Result<(Signature, Cursor), ListingFault>
    requires small { length bytes.now < 2 ^ 32 - 1 }
    requires placed { IsAt bytes.now at }
    ensures exact { AnswersAs bytes.now result (signature_verdict bytes.now at) }
    ensures kept { IfOk result (λ x. IsSignature x.0) }
{
    match control_rows_at(alloc, bytes, at) {
        Ok((rows, rest)) => match without_repeat(alloc, rows, at.line + 1) {
            Ok(signature) => Ok((signature, cursor_before(bytes, rest))),
            Err(fault) => Err(fault),
        },
        Err(LineFault::Bad { code, left }) => Err(ListingFault::Bad {
            code,
            line: line_before(bytes, left),
        }),
        Err(LineFault::OutOfMemory) => Err(ListingFault::OutOfMemory),
    }
}

/// The signature of these rows, the first of which stands at the line, or the first row whose label stood before.
fn without_repeat(
    alloc: Global,
    rows: Rows<Control>,
    first_line: u32,
) -> Result<Signature, ListingFault>
    requires lines { first_line + length rows < 2 ^ 32 }
    requires limits { AreCounted most_controls IsControl rows }
    ensures exact { MakesVerdict result (verdict.without_repeat (verdict.first_repeat rows) first_line rows) }
    ensures kept { IfOk result IsSignature }
{
    let mut signature = Signature::new(alloc);
    let mut rows = rows.into_vec().into_iter();
    while let Some(control) = rows.next() {
        let row = signature.len();
        let Control { label, arity, kind } = control;
        match signature.add(alloc, label, arity, kind) {
            Ok(_) => {}
            Err(SignatureFault::DuplicateControl) => return Err(ListingFault::Bad {
                code: DUPLICATE_LABEL,
                line: first_line + row,
            }),
            Err(SignatureFault::OutOfMemory) => return Err(ListingFault::OutOfMemory),
            Err(SignatureFault::ArityTooLarge) => unreachable!(),
            Err(SignatureFault::TooManyControls) => unreachable!(),
        }
    }
    // What a signature keeps is known here.
    prove!(signature.len() <= MOST_CONTROLS);
    Ok(signature)
}

#[tactic(auto, unfolding(crate::specs::Verdict::big_verdict))]
fn judged_big(
    alloc: Global,
    bytes: &[u8],
    at: Cursor,
    signature: &Signature,
) -> Result<(Big, Cursor), ListingFault>
    requires small { length bytes.now < 2 ^ 32 - 1 }
    requires placed { IsAt bytes.now at }
    ensures exact { AnswersAs bytes.now result (big_verdict signature.now bytes.now at) }
    ensures valid { IfOk result (λ x. IsValidUnder signature.now x.0) }
{
    match big_rows_at(alloc, bytes, at, signature) {
        Ok((big, rest)) => match big.check(alloc, signature) {
            Ok(()) => Ok((big, cursor_before(bytes, rest))),
            Err(CheckFault::Malformed { code, part, row }) => Err(ListingFault::Bad {
                code,
                line: at.line + lines_before(part, &big) + row,
            }),
            Err(CheckFault::OutOfMemory) => Err(ListingFault::OutOfMemory),
        },
        Err(LineFault::Bad { code, left }) => Err(ListingFault::Bad {
            code,
            line: line_before(bytes, left),
        }),
        Err(LineFault::OutOfMemory) => Err(ListingFault::OutOfMemory),
    }
}

/// The number of lines of a bigraph before the first row of the part.
fn lines_before(part: Part, big: &Big) -> u32
    requires { 6 + rows_of big.now < 2 ^ 32 }
    ensures { result ≡ verdict.lines_before part big.now }
{
    match part {
        Part::Sites => 2,
        Part::Inner => 3 + big.sites.len(),
        Part::Outer => 4 + big.sites.len() + big.inner.len(),
        Part::Edges => 5 + big.sites.len() + big.inner.len() + big.outer.len(),
        Part::Nodes => 6 + big.sites.len() + big.inner.len() + big.outer.len() + big.edges.len(),
    }
}
