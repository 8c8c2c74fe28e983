//! Why a listing was not read.
use bg_lists::OutOfMemory as NoMemory;
use std::alloc::{AllocError, AllocFailed};
use thiserror::Error;

/// The code of a line that is not of its form. The end of input counts as a line.
pub const BAD_LINE: u8 = 1;

/// The code of a line with a number above its limit.
pub const TOO_MANY: u8 = 2;

/// The code of a row of a signature whose label stood before.
pub const DUPLICATE_LABEL: u8 = 9;

/// Why a listing was not read.
#[derive(Clone, Copy, Debug, PartialEq, Eq, Error)]
pub enum ListingFault {
    /// No listing stands at the cursor: the code of the refusal, and the line, counted from 1 at the beginning of
    /// the input.
    #[error("line {line}: refused with code {code}")]
    Bad { code: u8, line: u32 },
    /// There was no memory for what was read.
    #[error("out of memory")]
    OutOfMemory,
}

impl From<NoMemory> for ListingFault {
    ghost use Rattle.std.specs.Prelude.{◌≡◌};
    ghost use Rattle.bg_listing.specs.declared.fault.ListingFault.TheVariants.{OutOfMemory};

    ghost from_gives = { λ _ fault. fault ≡ OutOfMemory };

    fn from(_error: NoMemory) -> ListingFault {
        ListingFault::OutOfMemory
    }
}

/// What a function that takes no memory answers where a part of a line does not stand there.
#[derive(Clone, Copy, Debug, PartialEq, Eq)]
pub(crate) struct NotThere;

/// Why a part of a line was not read.
#[derive(Clone, Copy, Debug, PartialEq, Eq)]
pub(crate) enum PartFault {
    OutOfMemory,
    /// It does not stand there.
    NotThere,
}

impl From<NoMemory> for PartFault {
    ghost use Rattle.std.specs.Prelude.{◌≡◌};
    ghost use Rattle.bg_listing.specs.declared.fault.PartFault.TheVariants.{OutOfMemory};

    ghost from_gives = { λ _ fault. fault ≡ OutOfMemory };

    fn from(_error: NoMemory) -> PartFault {
        PartFault::OutOfMemory
    }
}

impl From<NotThere> for PartFault {
    ghost use Rattle.std.specs.Prelude.{◌≡◌};
    ghost use Rattle.bg_listing.specs.declared.fault.PartFault.TheVariants as part;

    ghost from_gives = { λ _ fault. fault ≡ part.NotThere };

    fn from(_fault: NotThere) -> PartFault {
        PartFault::NotThere
    }
}

impl From<AllocError> for PartFault {
    ghost use Rattle.std.specs.Prelude.{◌≡◌};
    ghost use Rattle.bg_listing.specs.declared.fault.PartFault.TheVariants.{OutOfMemory};

    ghost from_gives = { λ _ fault. fault ≡ OutOfMemory };

    fn from(_error: AllocError) -> PartFault {
        PartFault::OutOfMemory
    }
}

impl<T: Drop> From<AllocFailed<T>> for PartFault {
    ghost use Rattle.std.specs.Prelude.{◌≡◌};
    ghost use Rattle.bg_listing.specs.declared.fault.PartFault.TheVariants.{OutOfMemory};

    ghost from_gives = { λ _ fault. fault ≡ OutOfMemory };

    fn from(_failed: AllocFailed<T>) -> PartFault {
        PartFault::OutOfMemory
    }
}

/// Why lines were not read.
#[derive(Clone, Copy, Debug, PartialEq, Eq)]
pub(crate) enum LineFault {
    OutOfMemory,
    /// The code of the refusal, and how many bytes are left from the beginning of the bad line on.
    Bad { code: u8, left: usize },
}

impl From<NoMemory> for LineFault {
    ghost use Rattle.std.specs.Prelude.{◌≡◌};
    ghost use Rattle.bg_listing.specs.declared.fault.LineFault.TheVariants.{OutOfMemory};

    ghost from_gives = { λ _ fault. fault ≡ OutOfMemory };

    fn from(_error: NoMemory) -> LineFault {
        LineFault::OutOfMemory
    }
}

impl<T: Drop> From<AllocFailed<T>> for LineFault {
    ghost use Rattle.std.specs.Prelude.{◌≡◌};
    ghost use Rattle.bg_listing.specs.declared.fault.LineFault.TheVariants.{OutOfMemory};

    ghost from_gives = { λ _ fault. fault ≡ OutOfMemory };

    fn from(_failed: AllocFailed<T>) -> LineFault {
        LineFault::OutOfMemory
    }
}
