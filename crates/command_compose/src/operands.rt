//! What `compose` reads.
ghost use Rattle.std.specs.Prelude.{◌-◌, ◌<◌, ◌^◌, length, IfOk};
ghost use Rattle.bg_base.specs.Bigraph.{IsValidUnder};
ghost use Rattle.bg_answers.specs.Failure.{GivesOrRefuses};

use bg_answers::{Failure, Refusal};
use bg_base::{Big, Signature};
use bg_listing::{Cursor, read_big, read_signature};
use std::alloc::Global;

/// The code by which a line behind the second bigraph is refused.
const EXTRA: u8 = 8;

/// A signature, and two bigraphs under it: G, the upper one, and F, the lower one.
#[derive(Debug, Drop)]
pub struct Operands {
    pub signature: Signature,
    pub upper: Big,
    pub lower: Big,
}

ghost use Rattle.command_compose.specs.Compose.{operands};

/// Reads the signature, G and F, behind which nothing may stand.
#[tactic(auto, unfolding(crate::specs::Compose::operands))]
pub(crate) fn read_operands(alloc: Global, input: &[u8]) -> Result<Operands, Failure>
    requires { length input.now < 2 ^ 32 - 1 }
    ensures exact { GivesOrRefuses (λ o. o) result (operands input.now) }
    ensures valid { IfOk result (λ o. IsValidUnder o.signature o.upper × IsValidUnder o.signature o.lower) }
{
    let start = Cursor { offset: 0, line: 1 };
    let (signature, behind_signature) = read_signature(alloc, input, start)?;
    let (upper, behind_upper) = read_big(alloc, input, behind_signature, &signature)?;
    let (lower, end) = read_big(alloc, input, behind_upper, &signature)?;
    if (end.offset as usize) < input.len() {
        let refusal = Refusal::Listing {
            code: EXTRA,
            line: end.line,
        };
        return Err(Failure::Refused(refusal));
    }
    Ok(Operands {
        signature,
        upper,
        lower,
    })
}
