//! What a journal is of a system.
use bg_cond::Verdict;
use bg_rules::Host;

/// Why an entry is not taken.
#[derive(Debug, Drop, PartialEq, Eq)]
pub enum Why {
    /// Its step is not legal; the verdict says for what reason first.
    Judged { verdict: Verdict },
    /// Its step is legal, and its result passes a limit of a host.
    TooLarge,
}

/// What a journal is of a system.
#[derive(Debug, Drop)]
pub enum Replay {
    /// A run from the system's first host, to this host.
    Legal { host: Host },
    /// No run: the entries before that number, counted from 0, are one, and that entry is not taken.
    Illegal { step: u32, why: Why },
}
