//! The rule of the history word, and the kinds of step that keep it.
use crate::knowledge::Knowledge;
use atomic_table::{Join, Play, Split, TableRule};
use bg_base::Entry;
use std::marker::{Brand, PhantomData};

/// The rule of the history word.
pub struct Seating;

impl TableRule<u8, Knowledge, ()> for Seating {
    ghost use Rattle.std.specs.Prelude.{[]};
    ghost use Rattle.bg_seats.specs.Seating.{turn_of, holds};

    ghost holds = { λ _ state. holds state };

    ghost first = { λ _. turn_of 0 [] };
}

// ---- how seats are split and joined

/// The turn gives one pass more.
pub struct GivesPass;

impl Split<Knowledge> for GivesPass {
    ghost use Rattle.bg_seats.specs.Seating.{with_pass_given, given_pass};

    ghost left = { with_pass_given };

    ghost right = { given_pass };
}

/// A pass takes the turn.
pub struct TakesTurn;

impl Join<Knowledge> for TakesTurn {
    ghost use Rattle.bg_seats.specs.Seating.{with_turn, spent};

    ghost both = { with_turn };

    ghost spent = { spent };
}

/// A pass leaves the turn.
pub struct LeavesTurn;

impl Split<Knowledge> for LeavesTurn {
    ghost use Rattle.bg_seats.specs.Seating.{pass_alone, turn_alone};

    ghost left = { pass_alone };

    ghost right = { turn_alone };
}

/// The turn takes in an ended pass.
pub struct TakesIn;

impl Join<Knowledge> for TakesIn {
    ghost use Rattle.bg_seats.specs.Seating.{taken_in, spent};

    ghost both = { taken_in };

    ghost spent = { spent };
}

// ---- the steps on the word

/// A load by a pass that has not the turn.
pub struct Loads;

impl Play<u8, Knowledge> for Loads {
    ghost use Rattle.bg_seats.specs.Seating.{Loaded};

    ghost then = { Loaded };
}

/// A load after which a pass with the turn has seen the history.
pub struct CatchesUp;

impl Play<u8, Knowledge> for CatchesUp {
    ghost use Rattle.bg_seats.specs.Seating.{CaughtUp};

    ghost then = { CaughtUp };
}

/// A load by a pass with the turn that changes no view.
pub struct Compares;

impl Play<u8, Knowledge> for Compares {
    ghost use Rattle.bg_seats.specs.Seating.{Compared};

    ghost then = { Compared };
}

/// A load after which a pass that the turn took in is no more.
pub struct Ends;

impl Play<u8, Knowledge> for Ends {
    ghost use Rattle.bg_seats.specs.Seating.{PassEnded};

    ghost then = { PassEnded };
}

/// The name of the entry that a step records. Each call picks its own.
pub trait EntryName {
    ghost use Rattle.bg_base.specs.declared.history.Entry.{Entry};

    ghost entry: { Entry };
}

impl EntryName for Brand {
    ghost use Rattle.std.specs.Prelude.{[]};

    ghost entry = { record { worker = 0; rule = 0; map = [] } };
}

/// The step that records the entry of that name.
pub struct Records<E> {
    of: PhantomData<E>,
}

impl<E: EntryName> Play<u8, Knowledge> for Records<E> {
    ghost use Rattle.bg_seats.specs.Seating.{Recorded};

    ghost then = { Recorded E.entry };
}
