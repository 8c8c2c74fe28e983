//! Why tokens are no model.
use std::alloc::AllocFailed;
use thiserror::Error;

/// The code of a token, or of the end of input, that cannot stand there.
pub const UNEXPECTED: u8 = 31;

/// The code of a token with too many brackets, nestings, closures and signs above it.
pub const TOO_DEEP: u8 = 32;

/// Why tokens are no model. Tokens are counted from 0; the number of all tokens stands for the end of input.
#[derive(Clone, Copy, Debug, PartialEq, Eq, Error)]
pub enum SyntaxFault {
    /// The first token, or the end of input, that follows the tokens before it in no model.
    #[error("token {token} is unexpected")]
    Unexpected { token: u32 },
    /// The first token with more than 256 symbols `K` and `U` above it, where a model begins with the tokens up to it.
    #[error("token {token} is too deep")]
    TooDeep { token: u32 },
    /// Memory was wanting.
    #[error("out of memory")]
    OutOfMemory,
}

impl<T: Drop> From<AllocFailed<T>> for SyntaxFault {
    ghost use Rattle.std.specs.Prelude.{◌≡◌};
    ghost use Rattle.bg_syntax.specs.declared.fault.SyntaxFault.TheVariants.{OutOfMemory};

    ghost from_gives = { λ _ fault. fault ≡ OutOfMemory };

    fn from(_failed: AllocFailed<T>) -> SyntaxFault {
        SyntaxFault::OutOfMemory
    }
}
