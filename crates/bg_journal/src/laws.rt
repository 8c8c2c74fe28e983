//! What acceptance and refusal of a journal mean of the whole text, and that a journal comes to one thing. A call does
//! nothing.
ghost use Rattle.std.specs.Prelude.{◌≡◌, ◌↔◌, ◌++◌, List, ℕ};
ghost use Rattle.bg_base.specs.declared.history.Entry.{Entry};
ghost use Rattle.bg_listing.specs.Stops.{HasText, StopsAtLine};
ghost use Rattle.bg_journal.specs.JournalText.{journal_text};
ghost use Rattle.bg_journal.specs.JournalReading.{IsJournal, IsBadAt, beginning};
ghost use Rattle.bg_journal.specs.Replays.{IsReplayOf};
ghost use Rattle.bg_journal.specs.declared.outcome.Replay.{Replay as ReplayValue};
ghost use Rattle.bg_journal.specs.declared.outcome.Replay.TheVariants.{Legal};
ghost use Rattle.bg_cond.specs.Steps.{IsRun};
ghost use Rattle.bg_rules.specs.Reaction.{HostState};
ghost use Rattle.bg_rules.specs.Systems.{SystemParts, IsSystem};

/// No text is that of two journals, whatever follows.
pub fn journals_have_one_text()
    ensures { (a b : List Entry) (x y : List ℕ) → IsJournal a → IsJournal b → journal_text a ++ x ≡ journal_text b ++ y → (a ≡ b) × (x ≡ y) }
{}

/// A text has a bad line exactly where it begins with the text of no journal.
pub fn bad_texts_are_no_journals()
    ensures no_journal { (bytes : List ℕ) (line : ℕ) → IsBadAt bytes line → (entries : List Entry) (rest : List ℕ) → IsJournal entries → ¬ (bytes ≡ journal_text entries ++ rest) }
    ensures some_line { (bytes : List ℕ) → ¬ HasText journal_text IsJournal bytes → (line : ℕ) × IsBadAt bytes line }
{}

/// A text is bad at one line alone.
pub fn a_text_is_bad_at_one_line()
    ensures { (bytes : List ℕ) (a b : ℕ) → IsBadAt bytes a → IsBadAt bytes b → a ≡ b }
{}

/// The bad line is the one at which a text stops being that of a journal: the lines before it, each with its line feed,
/// begin the text of some journal, and none begins with these lines and the bad one, whatever follows them.
pub fn a_text_stops_being_a_journal_at_its_bad_line()
    ensures { (bytes : List ℕ) (line : ℕ) → IsBadAt bytes line → StopsAtLine journal_text IsJournal bytes beginning line }
{}

/// A journal comes to one thing: no two replays of it by one system are right. So it is `Legal` exactly of runs, with the
/// host after them.
pub fn journals_come_to_one_thing()
    ensures one { (system : SystemParts) (entries : List Entry) (one other : ReplayValue) → IsSystem system → IsReplayOf system entries one
        → IsReplayOf system entries other → one ≡ other }
    ensures runs { (system : SystemParts) (entries : List Entry) (replay : ReplayValue) (host : HostState) → IsSystem system → IsReplayOf system entries replay
        → (replay ≡ Legal host ↔ IsRun system.rules system.init entries host) }
{}
