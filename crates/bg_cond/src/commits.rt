//! What workers look at, find and commit on a host that they share.
use bg_base::{Journal, Step};
use bg_rules::{Host, System};

/// A host at a version.
#[derive(Debug, Drop)]
pub struct View {
    /// How many entries of the history lead to the host.
    pub version: u32,
    /// The host after these.
    pub host: Host,
}

/// A step that was found at a version.
#[derive(Debug, Drop)]
pub struct Found {
    /// The step is legal at the host after so many entries.
    pub version: u32,
    /// The step.
    pub step: Step,
}

/// What became of a step that was found.
#[derive(Clone, Copy, Debug, PartialEq, Eq)]
pub enum Commit {
    /// It is the last entry now, and there are `version` entries.
    Done { version: u32 },
    /// It was found at an older version: there are `version` entries.
    Again { version: u32 },
    /// There are `limit` entries, and no more may be.
    Spent { limit: u32 },
    /// What it leads to passes a limit of a host.
    Full,
}

/// A host that is shared no more.
#[derive(Debug, Drop)]
pub struct Closed {
    /// The system whose steps were committed.
    pub system: System,
    /// The host after all entries.
    pub host: Host,
    /// All entries, in the order in which they were committed.
    pub journal: Journal,
}
