//! The laws of `trial`. A call does nothing.
ghost use Rattle.std.specs.Prelude.{◌≡◌, ℕ, List};
ghost use Rattle.bg_answers.specs.Answer.{Answer};
ghost use Rattle.bg_answers.specs.Promise.{IsRightAnswer, IsSettled};
ghost use Rattle.command_trial.specs.Trial.{trial_promise};

/// Two right answers to one model have one status, and a model is not both accepted and refused.
pub fn trials_are_settled()
    ensures { (size : ℕ) → IsSettled (trial_promise size) }
{}

/// There is one right answer for each size.
pub fn trials_have_one_answer()
    ensures { (size : ℕ) (model : List ℕ) (one other : Answer) → IsRightAnswer (trial_promise size) model one
        → IsRightAnswer (trial_promise size) model other → one ≡ other }
{}
