//! The text of `compose`.
ghost use Rattle.std.specs.Prelude.{◌-◌, ◌<◌, ◌^◌, List, length, IfOk};
ghost use Rattle.bg_base.specs.declared.signature.Control.{Control};
ghost use Rattle.bg_base.specs.Bigraph.{IsValid, IsValidUnder};
ghost use Rattle.command_compose.specs.Compose.{composed, composed_or_refused};
ghost use Rattle.bg_answers.specs.Failure.{GivesOrRefuses};

use crate::operands::{Operands, read_operands};
use bg_answers::Failure;
use bg_base::Big;
use bg_listing::write_big;
use std::alloc::Global;

/// The text of `compose`: the listing of the composition of what the input lists.
#[tactic(auto, unfolding(crate::specs::Compose::composed))]
pub(crate) fn composition(alloc: Global, input: &[u8]) -> Result<Vec<u8>, Failure>
    requires { length input.now < 2 ^ 32 - 1 }
    ensures { GivesOrRefuses (λ text. text.items) result (composed input.now) }
{
    let Operands {
        signature,
        upper,
        lower,
    } = read_operands(alloc, input)?;
    let whole = join(alloc, upper, lower)?;
    let mut text = Vec::new(alloc);
    write_big(alloc, &signature, &whole, &mut text)?;
    Ok(text)
}

/// The composition of G, the upper bigraph, and F, the lower one.
fn join(alloc: Global, upper: Big, lower: Big) -> Result<Big, Failure>
    requires upper_valid { IsValid upper }
    requires lower_valid { IsValid lower }
    ensures exact { GivesOrRefuses (λ whole. whole) result (composed_or_refused upper lower) }
    ensures fits { (signature : List Control) → IsValidUnder signature upper → IsValidUnder signature lower
        → IfOk result (IsValidUnder signature) }
{
    Ok(bg_builder::compose(alloc, upper, lower)?)
}
