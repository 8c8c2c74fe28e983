//! Why a text has no tokens.
use std::alloc::AllocFailed;
use thiserror::Error;

/// The code of a byte that begins no token, or that no text between quotes may hold.
pub const BAD_BYTE: u8 = 21;

/// The code of a text without a closing quote before the end of its line.
pub const OPEN_STRING: u8 = 22;

/// The code of a number above 9,223,372,036,854,775,807.
pub const NUMBER_TOO_LARGE: u8 = 23;

/// The code of digits followed at once by a dot and a digit.
pub const DECIMAL_NUMBER: u8 = 24;

/// Why a text has no tokens.
#[derive(Clone, Copy, Debug, PartialEq, Eq, Error)]
pub enum LexFault {
    /// The code of the first refusal, and its place in bytes from the beginning of the text.
    #[error("byte {offset}: refused with code {code}")]
    Bad { code: u8, offset: u32 },
    /// There was no memory for the tokens.
    #[error("out of memory")]
    OutOfMemory,
}

impl<T: Drop> From<AllocFailed<T>> for LexFault {
    ghost use Rattle.std.specs.Prelude.{◌≡◌};
    ghost use Rattle.bg_text.specs.declared.fault.LexFault.TheVariants.{OutOfMemory};

    ghost from_gives = { λ _ fault. fault ≡ OutOfMemory };

    fn from(_failed: AllocFailed<T>) -> LexFault {
        LexFault::OutOfMemory
    }
}
