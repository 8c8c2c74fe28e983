//! The readers of a number and of a label alone.
ghost use Rattle.std.specs.Prelude.{◌≡◌, ◌<◌, ◌≤◌, ◌-◌, ◌^◌, ℕ, length, IfOk, IfSome, IfNone};
ghost use Rattle.bg_base.specs.declared.labels.Label.{Label as LabelValue};
ghost use Rattle.bg_listing.specs.Verdict.{IsNumberAt, IsLabelAt};

use crate::fault::PartFault;
use crate::label::label;
use crate::number::number_up_to;
use bg_base::Label;
use bg_lists::{Mem, OutOfMemory};
use std::alloc::Global;

/// The number that the whole run of digits at the offset spells, and the offset after it. `None` comes exactly where
/// there is no digit, the run has a leading zero, or the number is above `most`. Takes no memory; linear in the run
/// and in the digits alone.
pub fn read_number(bytes: &[u8], at: u32, most: u32) -> Option<(u32, u32)>
    requires small { length bytes.now < 2 ^ 32 - 1 }
    requires inside { at ≤ length bytes.now }
    ensures found { IfSome result (λ x. IsNumberAt bytes.now at x.0 x.1) }
    ensures bounded { IfSome result (λ x. x.0 ≤ most) }
    ensures none { IfNone result ((number end : ℕ) → number ≤ most → ¬ IsNumberAt bytes.now at number end) }
{
    let (_, front) = bytes.split_at(at as usize);
    match number_up_to(front, u64::from(most)) {
        Some((number, rest)) => Some((number as u32, offset_before(bytes, rest))),
        None => None,
    }
}

/// The longest label that stands at the offset, and the offset after it. `None` comes exactly where none stands
/// there: a label begins with an upper-case letter. Linear in the label and in a run of arguments that is not
/// well-formed.
pub fn read_label(alloc: Global, bytes: &[u8], at: u32) -> Mem<Option<(Label, u32)>>
    requires small { length bytes.now < 2 ^ 32 - 1 }
    requires inside { at ≤ length bytes.now }
    ensures found { IfOk result (λ answer. IfSome answer (λ x. IsLabelAt bytes.now at x.0 x.1)) }
    ensures longest { IfOk result (λ answer. IfSome answer (λ x. (other : LabelValue) (end : ℕ) → IsLabelAt bytes.now at other end → end ≤ x.1)) }
    ensures none { IfOk result (λ answer. IfNone answer ((other : LabelValue) (end : ℕ) → ¬ IsLabelAt bytes.now at other end)) }
{
    let (_, front) = bytes.split_at(at as usize);
    match label(alloc, front) {
        Ok((label, rest)) => Ok(Some((label, offset_before(bytes, rest)))),
        Err(PartFault::NotThere) => Ok(None),
        Err(PartFault::OutOfMemory) => Err(OutOfMemory),
    }
}

/// The offset at which as many bytes are left as there are in `rest`.
fn offset_before(bytes: &[u8], rest: &[u8]) -> u32
    requires { length bytes.now < 2 ^ 32 - 1 }
    ensures { result ≡ length bytes.now - length rest.now }
{
    bytes.len().saturating_sub(rest.len()) as u32
}
