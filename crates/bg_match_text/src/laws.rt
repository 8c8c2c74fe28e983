//! The laws of what is written. A call does nothing.
ghost use Rattle.std.specs.Prelude.{◌≡◌, ℕ, Bool, List};
ghost use Rattle.bg_match_text.specs.MatchText.{IsMatchText};
ghost use Rattle.bg_rules.specs.Systems.{SystemParts, IsSystem};

/// Each system has a text of where its rules occur, and one with their decompositions.
pub fn systems_have_a_text()
    ensures { (system : SystemParts) (explain : Bool) → IsSystem system → (text : List ℕ) × IsMatchText system explain text }
{}

/// There is one text of where the rules of a system occur, and one of these with their decompositions.
pub fn systems_have_one_text()
    ensures { (system : SystemParts) (explain : Bool) (one other : List ℕ) → IsSystem system
        → IsMatchText system explain one → IsMatchText system explain other → one ≡ other }
{}
