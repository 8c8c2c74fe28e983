//! Why the occurrences of a rule are not listed.
use bg_lists::OutOfMemory;

/// Why the occurrences of a system's rules are not all listed.
#[derive(Clone, Copy, Debug, PartialEq, Eq)]
pub(crate) enum MatchesFault {
    /// The rule with this number is the first with more occurrences than were asked for.
    TooMany { rule: u32 },
    /// There was no memory.
    OutOfMemory,
}

impl From<OutOfMemory> for MatchesFault {
    ghost use Rattle.std.specs.Prelude.{◌≡◌};
    ghost use Rattle.command_match.specs.declared.fault.MatchesFault.TheVariants.{OutOfMemory};

    ghost from_gives = { λ _ fault. fault ≡ OutOfMemory };

    fn from(_fault: OutOfMemory) -> MatchesFault {
        MatchesFault::OutOfMemory
    }
}
