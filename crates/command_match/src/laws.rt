//! The laws of `match`. A call does nothing.
ghost use Rattle.std.specs.Prelude.{◌≡◌, ℕ, Bool, List};
ghost use Rattle.bg_answers.specs.Answer.{Answer};
ghost use Rattle.bg_answers.specs.Described.{IsModel};
ghost use Rattle.bg_answers.specs.Promise.{IsRightAnswer, IsSettled};
ghost use Rattle.command_match.specs.Match.{IsMatchOf, match_promise};

/// Two right answers to one input have one status, and an input is not both accepted and refused.
pub fn matches_are_settled()
    ensures { (most : ℕ) (explain : Bool) → IsSettled (match_promise most explain) }
{}

/// `match` has an answer to each model: all occurrences of each rule, or that a rule has too many.
pub fn models_have_an_answer()
    ensures { (most : ℕ) (explain : Bool) (input : List ℕ) → IsModel input → (answer : Answer) × IsMatchOf most explain input answer }
{}

/// There is one right answer to an input.
pub fn inputs_have_one_answer()
    ensures { (most : ℕ) (explain : Bool) (input : List ℕ) (one other : Answer) → IsRightAnswer (match_promise most explain) input one
        → IsRightAnswer (match_promise most explain) input other → one ≡ other }
{}
