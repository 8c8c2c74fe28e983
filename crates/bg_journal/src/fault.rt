//! Why a journal was not read.
use bg_lists::OutOfMemory as NoMemory;
use thiserror::Error;

/// Why a journal was not read.
#[derive(Clone, Copy, Debug, PartialEq, Eq, Error)]
pub enum JournalFault {
    /// The bytes do not begin with the text of a journal: the first line that is not of the form, counted from 1. The
    /// end of the bytes counts as a line.
    #[error("line {line}: no line of a journal")]
    Bad { line: u32 },
    /// There was no memory for what was read.
    #[error("out of memory")]
    OutOfMemory,
}

impl From<NoMemory> for JournalFault {
    ghost use Rattle.std.specs.Prelude.{◌≡◌};
    ghost use Rattle.bg_journal.specs.declared.fault.JournalFault.TheVariants.{OutOfMemory};

    ghost from_gives = { λ _ fault. fault ≡ OutOfMemory };

    fn from(_error: NoMemory) -> JournalFault {
        JournalFault::OutOfMemory
    }
}
