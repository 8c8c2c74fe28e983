ghost use Rattle.std.specs.Prelude.{◌≡◌};

use std::alloc::AllocError;
use thiserror::Error;

/// A source or a sink failed. It says no more: the cause stays with the input or the output.
#[derive(Clone, Copy, Debug, PartialEq, Eq, Error)]
#[error("the transfer failed")]
pub struct Failed;

/// Why a write or a flush moved nothing.
#[derive(Clone, Copy, Debug, PartialEq, Eq, Error)]
pub enum SinkFault {
    /// The sink failed, and its count of faults rose.
    #[error("the output failed")]
    Failed,
    /// The sink found no memory for the bytes.
    #[error("out of memory")]
    OutOfMemory,
}

/// Why a source was not read whole.
#[derive(Clone, Copy, Debug, PartialEq, Eq, Error)]
pub enum ReadAllFault {
    /// A read failed, and the source's count of faults rose.
    #[error("the input failed")]
    ReadFault,
    /// The source gave one byte more than was allowed.
    #[error("the input is too long")]
    TooLong,
    /// There was no memory for the bytes; nothing was read.
    #[error("out of memory")]
    OutOfMemory,
}

impl From<AllocError> for SinkFault {
    ghost use Rattle.bg_io.specs.declared.fault.SinkFault.TheVariants.{OutOfMemory};

    ghost from_gives = { λ _ fault. fault ≡ OutOfMemory };

    fn from(_: AllocError) -> SinkFault {
        SinkFault::OutOfMemory
    }
}

impl From<Failed> for ReadAllFault {
    ghost use Rattle.bg_io.specs.declared.fault.ReadAllFault.TheVariants.{ReadFault};

    ghost from_gives = { λ _ fault. fault ≡ ReadFault };

    fn from(_: Failed) -> ReadAllFault {
        ReadAllFault::ReadFault
    }
}

impl From<AllocError> for ReadAllFault {
    ghost use Rattle.bg_io.specs.declared.fault.ReadAllFault.TheVariants.{OutOfMemory};

    ghost from_gives = { λ _ fault. fault ≡ OutOfMemory };

    fn from(_: AllocError) -> ReadAllFault {
        ReadAllFault::OutOfMemory
    }
}
