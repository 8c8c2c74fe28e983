//! The laws of commands. A call does nothing.
ghost use Rattle.std.specs.Prelude.{◌≡◌, ℕ, List};
ghost use Rattle.bg_answers.specs.Answer.{Answer};
ghost use Rattle.bg_answers.specs.Promise.{IsSettled};
ghost use Rattle.bg_top.specs.Right.{promise_of, IsReply};
ghost use Rattle.bg_watch.specs.Watching.{Watched};
ghost use Rattle.bg_words.specs.declared.asking.Request.{Request};
ghost use Rattle.bg_words.specs.declared.command.Command.TheVariants.{Match};

/// Two right answers to one request and one input have one status, and an input is not both accepted and refused.
pub fn commands_are_settled()
    ensures { (request : Request) (watchers : List Watched) → IsSettled (promise_of request watchers) }
{}

/// `match` answers the same for every number of workers.
pub fn matches_are_the_same_for_all_workers()
    ensures { (request : Request) (workers : ℕ) (watchers : List Watched) (input : List ℕ) (one other : Answer) → request.command ≡ Match
        → IsReply request watchers input one → IsReply (record request { workers = workers }) watchers input other → one ≡ other }
{}
