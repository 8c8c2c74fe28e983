//! Why a command answers nothing of its own.
ghost use Rattle.std.specs.Prelude.{◌≡◌};

use crate::Refusal;
use bg_algebra::AlgebraFault;
use bg_listing::ListingFault;
use bg_lists::OutOfMemory;
use std::alloc::AllocError;

/// Why a command answers nothing of its own: its input is refused, or there was no memory.
#[derive(Debug, Drop)]
pub enum Failure {
    Refused(Refusal),
    OutOfMemory,
}

impl From<ListingFault> for Failure {
    ghost use Rattle.bg_answers.specs.Failure.{of_listing};

    ghost from_gives = { λ fault failure. failure ≡ of_listing fault };

    fn from(fault: ListingFault) -> Failure {
        match fault {
            ListingFault::Bad { code, line } => Failure::Refused(Refusal::Listing { code, line }),
            ListingFault::OutOfMemory => Failure::OutOfMemory,
        }
    }
}

impl From<AlgebraFault> for Failure {
    ghost use Rattle.bg_answers.specs.Failure.{of_algebra};

    ghost from_gives = { λ fault failure. failure ≡ of_algebra fault };

    fn from(fault: AlgebraFault) -> Failure {
        match fault {
            AlgebraFault::FacesDiffer => Failure::Refused(Refusal::FacesDiffer),
            AlgebraFault::SupportMeets => Failure::Refused(Refusal::SupportMeets),
            AlgebraFault::NamesMeet => Failure::Refused(Refusal::NamesMeet),
            AlgebraFault::InnerNamesMeet => Failure::Refused(Refusal::InnerNamesMeet),
            AlgebraFault::WidthsDiffer => Failure::Refused(Refusal::WidthsDiffer),
            AlgebraFault::NoSuchName => Failure::Refused(Refusal::NoSuchName),
            AlgebraFault::HasInnerNames => Failure::Refused(Refusal::HasInnerNames),
            AlgebraFault::OutOfMemory => Failure::OutOfMemory,
        }
    }
}

impl From<OutOfMemory> for Failure {
    ghost use Rattle.bg_answers.specs.declared.failure.Failure.TheVariants.{OutOfMemory};

    ghost from_gives = { λ _ failure. failure ≡ OutOfMemory };

    fn from(_: OutOfMemory) -> Failure {
        Failure::OutOfMemory
    }
}

impl From<AllocError> for Failure {
    ghost use Rattle.bg_answers.specs.declared.failure.Failure.TheVariants.{OutOfMemory};

    ghost from_gives = { λ _ failure. failure ≡ OutOfMemory };

    fn from(_: AllocError) -> Failure {
        Failure::OutOfMemory
    }
}
