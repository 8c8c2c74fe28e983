//! The laws of `compose`. A call does nothing.
ghost use Rattle.std.specs.Prelude.{◌≡◌, ◌↔◌, ℕ, List, Ok};
ghost use Rattle.bg_answers.specs.Promise.{IsSettled};
ghost use Rattle.command_compose.specs.Compose.{IsComposition, composed, compose_promise};

/// A text is what the input comes to exactly where, in the words of the field, it lists the composition of what the
/// input lists.
pub fn compositions_are_what_is_composed()
    ensures { (input output : List ℕ) → composed input ≡ Ok output ↔ IsComposition input output }
{}

/// Two right answers to one input have one status, and an input is not both accepted and refused.
pub fn compositions_are_settled()
    ensures { IsSettled compose_promise }
{}
