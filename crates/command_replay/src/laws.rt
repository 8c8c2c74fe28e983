//! The laws of `replay`. A call does nothing.
ghost use Rattle.std.specs.Prelude.{◌≡◌, ◌↔◌, ℕ, List};
ghost use Rattle.bg_answers.specs.Answer.{Answer};
ghost use Rattle.bg_answers.specs.Promise.{IsRightAnswer, IsSettled};
ghost use Rattle.bg_answers.specs.declared.refusal.Refusal.{Refusal};
ghost use Rattle.bg_answers.specs.declared.status.Status.TheVariants.{NoRun};
ghost use Rattle.command_replay.specs.Replay.{IsRefusedBehind, IsReplayAnswer, IsNoRun, replay_promise};

/// Two right answers to one input have one status, and an input is not both accepted and refused.
pub fn replays_are_settled()
    ensures { IsSettled replay_promise }
{}

/// There is one right answer to an input: journal and model determine it.
pub fn inputs_have_one_answer()
    ensures { (input : List ℕ) (one other : Answer) → IsRightAnswer replay_promise input one → IsRightAnswer replay_promise input other
        → one ≡ other }
{}

/// What is made of an input has the status `NoRun` exactly where no text of a journal stands in front, or the journal is no
/// run of the system that the model describes; and such an input is not refused.
pub fn no_run_is_told_of_no_run()
    ensures told { (input : List ℕ) (answer : Answer) → IsReplayAnswer input answer → (answer.status ≡ NoRun ↔ IsNoRun input) }
    ensures unrefused { (input : List ℕ) (refusal : Refusal) → IsNoRun input → IsRefusedBehind input refusal → ⊥ }
{}
