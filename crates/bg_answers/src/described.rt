//! The system that a model describes.
ghost use Rattle.std.specs.Prelude.{◌≡◌, ◌-◌, ◌<◌, ◌≤◌, ◌^◌, length};
ghost use Rattle.bg_answers.specs.Described.{Describes, refused_at};

use crate::{Failure, Refusal};
use bg_elab::{Detail, ModelFault, read};
use bg_rules::System;
use bg_text::place_of;
use std::alloc::Global;

/// The system that the input describes, or the refusal of the input, at its line and column, both counted from 1. Costs
/// what `read` of `bg_elab` costs.
pub fn system_of(alloc: Global, input: &[u8]) -> Result<System, Failure>
    requires { length input.now < 2 ^ 32 - 1 }
    ensures { Describes result input.now }
{
    match read(alloc, input) {
        Ok(system) => Ok(system),
        Err(
            ModelFault::Bad {
                code,
                detail,
                offset,
            },
        ) => Err(Failure::Refused(refused_at(input, code, detail, offset))),
        Err(ModelFault::OutOfMemory) => Err(Failure::OutOfMemory),
    }
}

/// The refusal of a text at that byte.
fn refused_at(input: &[u8], code: u8, detail: Detail, offset: u32) -> Refusal
    requires small { length input.now < 2 ^ 32 - 1 }
    requires inside { offset ≤ length input.now }
    ensures { result ≡ refused_at input.now code detail offset }
{
    let place = place_of(input, offset);
    Refusal::Model {
        code,
        detail,
        line: place.line,
        column: place.column,
    }
}
