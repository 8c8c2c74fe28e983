//! The law of `check` and `show`. A call does nothing.
ghost use Rattle.bg_answers.specs.Promise.{IsSettled};
ghost use Rattle.command_models.specs.Models.{check_promise, show_promise};

/// Two right answers to one input have one status, and an input is not both accepted and refused.
pub fn texts_of_models_are_settled()
    ensures check { IsSettled check_promise }
    ensures show { IsSettled show_promise }
{}
