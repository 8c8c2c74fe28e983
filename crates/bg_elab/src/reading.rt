//! From a text to the system that it describes.
ghost use Rattle.std.specs.Prelude.{◌≡◌, ◌<◌, length};
ghost use Rattle.bg_elab.specs.Elaboration.{text_of};
ghost use Rattle.bg_elab.specs.Reading as definition;

use crate::elaboration::elaborate;
use crate::fault::{Detail, ModelFault, offset_of};
use bg_rules::System;
use bg_syntax::{SyntaxFault, TOO_DEEP, UNEXPECTED, parse};
use bg_text::{Token, tokens};
use std::alloc::Global;

/// The system that a text describes, or its first refusal: by its tokens, or else by the grammar, or else by what its
/// statements and its block come to.
///
/// Costs what `tokens`, `parse` and `elaborate` cost, which are linear but for what evaluation takes. No text has
/// 4,294,967,295 bytes.
pub fn read(alloc: Global, bytes: &[u8]) -> Result<System, ModelFault>
    requires { length bytes.now < 4294967295 }
    ensures { definition.GivesReading result bytes.now }
{
    let found = tokens(alloc, bytes)?;
    let tree = match parse(alloc, &found) {
        Ok(tree) => tree,
        Err(fault) => return Err(of_syntax(bytes, &found, fault)),
    };
    elaborate(alloc, bytes, &found, &tree)
}

/// The fault of a text whose tokens are no model, at the byte where the token begins.
fn of_syntax(bytes: &[u8], tokens: &[Token], fault: SyntaxFault) -> ModelFault
    requires { length bytes.now < 4294967295 }
    ensures { result ≡ definition.of_syntax (text_of bytes.now tokens.now) fault }
{
    match fault {
        SyntaxFault::Unexpected { token } => bad(UNEXPECTED, offset_of(bytes, tokens, token)),
        SyntaxFault::TooDeep { token } => bad(TOO_DEEP, offset_of(bytes, tokens, token)),
        SyntaxFault::OutOfMemory => ModelFault::OutOfMemory,
    }
}

/// A fault that says nothing but its number and its byte.
fn bad(code: u8, offset: u32) -> ModelFault
    ensures { result ≡ ModelFault.Bad code Detail.Nothing offset }
{
    ModelFault::Bad {
        code,
        detail: Detail::Nothing,
        offset,
    }
}
