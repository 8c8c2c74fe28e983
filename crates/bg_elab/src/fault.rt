//! Why a model is no system.
ghost use Rattle.std.specs.Prelude.{◌≡◌, ◌<◌, length, slice_get};
ghost use Rattle.std.specs.Option.{option_copied};
ghost use Rattle.bg_elab.specs.Elaboration as definition;

use bg_text::{LexFault, Token};
use bg_values::{Cause, LimitWord, Refusal, Scope, Stop};
use thiserror::Error;

/// What a refusal says beside its number: the clause of a solid bigraph that fails, or the limit.
#[derive(Clone, Copy, Debug, PartialEq, Eq)]
pub enum Detail {
    Nothing,
    Clause(u8),
    Limit(LimitWord),
}

/// Why a model is no system.
#[derive(Clone, Copy, Debug, PartialEq, Eq, Error)]
pub enum ModelFault {
    /// It is refused for the cause with that number, at that byte, counted from 0.
    #[error("the model is refused")]
    Bad {
        code: u8,
        detail: Detail,
        offset: u32,
    },
    /// There was no memory.
    #[error("out of memory")]
    OutOfMemory,
}

impl From<LexFault> for ModelFault {
    ghost use Rattle.bg_elab.specs.Reading.{of_lexical};

    ghost from_gives = { λ fault made. made ≡ of_lexical fault };

    fn from(fault: LexFault) -> ModelFault {
        match fault {
            LexFault::Bad { code, offset } => ModelFault::Bad {
                code,
                detail: Detail::Nothing,
                offset,
            },
            LexFault::OutOfMemory => ModelFault::OutOfMemory,
        }
    }
}

/// The fault by which the model of the text is refused.
pub(crate) fn fault_of(text: &Scope, stop: Stop) -> ModelFault
    requires { length text.now.bytes < 4294967295 }
    ensures { result ≡ definition.fault_of text.now stop }
{
    match stop {
        Stop::Refused(refusal) => refused(text, refusal),
        Stop::OutOfMemory => ModelFault::OutOfMemory,
    }
}

/// The refusal, at the byte where its token begins.
fn refused(text: &Scope, refusal: Refusal) -> ModelFault
    requires { length text.now.bytes < 4294967295 }
    ensures { result ≡ definition.bad text.now refusal }
{
    ModelFault::Bad {
        code: refusal.cause.code(),
        detail: detail_of(refusal.cause),
        offset: offset_of(text.bytes, text.tokens, refusal.token),
    }
}

fn detail_of(cause: Cause) -> Detail
    ensures { result ≡ definition.detail_of cause }
{
    match cause {
        Cause::NotSolid(clause) => Detail::Clause(clause),
        Cause::TooLarge(limit) => Detail::Limit(limit),
        _ => Detail::Nothing,
    }
}

/// The byte where the token begins; behind the last byte, where there is no such token.
pub(crate) fn offset_of(bytes: &[u8], tokens: &[Token], token: u32) -> u32
    requires { length bytes.now < 4294967295 }
    ensures { result ≡ definition.start_or (length bytes.now) (slice_get tokens.now token) }
{
    match find(tokens, token) {
        Some(found) => found.start,
        None => bytes.len() as u32,
    }
}

/// The token with that number.
fn find(tokens: &[Token], token: u32) -> Option<&Token>
    ensures { option_copied result ≡ slice_get tokens.now token }
{
    tokens.get(token as usize)
}
