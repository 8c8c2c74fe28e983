//! Workers that are to run, and how they end.
use bg_base::Step;
use bg_cond::Picker;
use bg_lists::Mem;

/// How a worker ends.
#[derive(Debug, Drop)]
pub enum Ended {
    /// No step is legal at the host after so many entries.
    Quiet { version: u32 },
    /// There are as many entries as there may be.
    Limit,
    /// The step is legal at the host after so many entries, and its result passes a limit of a host.
    Full { version: u32, step: Step },
}

/// A worker that is to run, or has run: its pass, by whom it finds steps, by what it picks them, and its number.
#[derive(Drop)]
pub struct Member<P, F> {
    /// What the worker has seen.
    pub pass: P,
    /// By whom it finds its steps.
    pub finder: F,
    /// The generator by which it picks them.
    pub picker: Picker,
    /// Counted from 0.
    pub worker: u32,
    /// How it ended; none where it has not run.
    pub ended: Option<Mem<Ended>>,
}

/// A worker that is to run, or has run, at a host of its own: its pass, by whom it follows and finds steps, by what it picks
/// them, and its number.
#[derive(Drop)]
pub struct FollowMember<P, F> {
    /// What the worker has seen.
    pub pass: P,
    /// By whom it follows the entries, and finds its steps.
    pub follower: F,
    /// The generator by which it picks them.
    pub picker: Picker,
    /// Counted from 0.
    pub worker: u32,
    /// How it ended; none where it has not run.
    pub ended: Option<Mem<Ended>>,
}
