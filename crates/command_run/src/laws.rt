//! The laws of `run`. A call does nothing.
ghost use Rattle.std.specs.Prelude.{◌≡◌, ℕ, List};
ghost use Rattle.bg_answers.specs.Answer.{Answer};
ghost use Rattle.bg_answers.specs.Promise.{IsRightAnswer, IsSettled};
ghost use Rattle.bg_watch.specs.Watching.{Watched};
ghost use Rattle.command_run.specs.Run.{run_promise};

/// Two right answers to one input have one status, and an input is not both accepted and refused.
pub fn runs_are_settled()
    ensures { (most workers seed : ℕ) (watchers : List Watched) → IsSettled (run_promise most workers seed watchers) }
{}

/// With one worker there is one right answer to an input, for each number of steps, each seed and each list of watchers: the
/// journal, the end, the lines and the last host are those that model, seed, steps and watchers determine.
pub fn one_worker_has_one_answer()
    ensures { (most seed : ℕ) (watchers : List Watched) (input : List ℕ) (one other : Answer) → IsRightAnswer (run_promise most 1 seed watchers) input one
        → IsRightAnswer (run_promise most 1 seed watchers) input other → one ≡ other }
{}
