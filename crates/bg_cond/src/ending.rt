//! How a run ends.
use bg_base::Step;

/// How a run ends.
#[derive(Debug, Drop)]
pub enum End {
    /// No step is legal.
    Quiet,
    /// It has as many entries as were asked for.
    Limit,
    /// The step is legal at the last host, and its result passes a limit of a host. Of a run by one worker it is the step that was
    /// picked.
    Full { step: Step },
}
