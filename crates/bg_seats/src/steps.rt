//! What a pass and the turn do together: they are one seat for a step on the word, and two again.
ghost use Rattle.std.specs.Prelude.{◌≡◌, ◌<◌, ◌++◌, ◌∷◌, [], length};
ghost use Rattle.bg_base.specs.Limits.{most_steps};
ghost use Rattle.bg_seats.specs.Histories.{GrowsByOthers, WorkersBelow};
ghost use Rattle.bg_seats.specs.Seating.{turn_of, pass_of, both_of, list_of, Told};

use crate::knowledge::Knowledge;
use crate::rule::{
    CatchesUp, Compares, Ends, EntryName, LeavesTurn, Records, Seating, TakesIn, TakesTurn,
};
use atomic_table::{Badge, Seat, Shared};
use bg_base::Entry;

/// The word.
pub type HistoryWord = Shared<u8, Knowledge, (), Seating>;

/// A seat at it, of a pass or of the turn.
pub type HistorySeat = Seat<u8, Knowledge>;

/// The pass sees the history. The number is that of the entries.
pub fn see_history(
    word: &HistoryWord,
    seat: &mut HistorySeat,
    worker: u32,
    turn: Badge<Knowledge>,
    passes: u32,
) -> (u64, Badge<Knowledge>)
    requires tables { (seat.old.table_id ≡ word.now.table_id) × (turn.table_id ≡ word.now.table_id) × (word.now.table_id.words ≡ 1) }
    requires pass { seat.old.me ≡ (pass_of worker seat.old.me.0.seen, []) }
    requires turn { turn.views ≡ turn_of passes (list_of turn.views) ∷ [] }
    ensures tables { (seat.new.table_id ≡ seat.old.table_id) × (result.1.table_id ≡ seat.old.table_id) }
    ensures pass { seat.new.me ≡ (pass_of worker (list_of turn.views), []) }
    ensures turn { result.1.views ≡ turn.views }
    ensures told { Told (both_of worker seat.old.me.0.seen passes (list_of turn.views)) result.0 }
{
    word.join_seat::<TakesTurn>(seat, turn.into_seat());
    let count = word.load::<CatchesUp>(seat, 0);
    let turn = word.split_seat::<LeavesTurn>(seat);
    (count, turn.into_badge())
}

/// What the pass has seen is compared with the history. The number is that of the entries.
pub fn compare_with_history(
    word: &HistoryWord,
    seat: &mut HistorySeat,
    worker: u32,
    turn: Badge<Knowledge>,
    passes: u32,
) -> (u64, Badge<Knowledge>)
    requires tables { (seat.old.table_id ≡ word.now.table_id) × (turn.table_id ≡ word.now.table_id) × (word.now.table_id.words ≡ 1) }
    requires pass { seat.old.me ≡ (pass_of worker seat.old.me.0.seen, []) }
    requires turn { turn.views ≡ turn_of passes (list_of turn.views) ∷ [] }
    ensures tables { (seat.new.table_id ≡ seat.old.table_id) × (result.1.table_id ≡ seat.old.table_id) }
    ensures pass { seat.new.me ≡ (pass_of worker seat.old.me.0.seen, []) }
    ensures turn { result.1.views ≡ turn.views }
    ensures told { Told (both_of worker seat.old.me.0.seen passes (list_of turn.views)) result.0 }
{
    word.join_seat::<TakesTurn>(seat, turn.into_seat());
    let count = word.load::<Compares>(seat, 0);
    let turn = word.split_seat::<LeavesTurn>(seat);
    (count, turn.into_badge())
}

/// A pass that has seen the history records an entry. The number is that of the entries before.
pub fn record_entry<E: EntryName>(
    word: &HistoryWord,
    seat: &mut HistorySeat,
    worker: u32,
    turn: Badge<Knowledge>,
    passes: u32,
    entry: &Entry,
) -> (u64, Badge<Knowledge>)
    requires tables { (seat.old.table_id ≡ word.now.table_id) × (turn.table_id ≡ word.now.table_id) × (word.now.table_id.words ≡ 1) }
    requires pass { seat.old.me ≡ (pass_of worker (list_of turn.views), []) }
    requires turn { turn.views ≡ turn_of passes (list_of turn.views) ∷ [] }
    requires entry { (entry.now ≡ E.entry) × (entry.now.worker ≡ worker) × (length (list_of turn.views) < most_steps) }
    ensures tables { (seat.new.table_id ≡ seat.old.table_id) × (result.1.table_id ≡ seat.old.table_id) }
    ensures pass { seat.new.me ≡ (pass_of worker (list_of turn.views ++ entry.now ∷ []), []) }
    ensures turn { result.1.views ≡ turn_of passes (list_of turn.views ++ entry.now ∷ []) ∷ [] }
    ensures count { result.0 ≡ length (list_of turn.views) }
    ensures numbered { WorkersBelow passes (list_of turn.views ++ entry.now ∷ []) }
{
    word.join_seat::<TakesTurn>(seat, turn.into_seat());
    let count = word.fetch_add::<Records<E>>(seat, 0, 1);
    let turn = word.split_seat::<LeavesTurn>(seat);
    // The entry is an argument so that the caller's name for it can be told by its value.
    let _ = entry;
    (count, turn.into_badge())
}

/// The turn takes in an ended pass.
pub fn take_in_pass(
    word: &HistoryWord,
    turn: Badge<Knowledge>,
    passes: u32,
    seat: HistorySeat,
    worker: u32,
) -> Badge<Knowledge>
    requires tables { (seat.table_id ≡ word.now.table_id) × (turn.table_id ≡ word.now.table_id) × (word.now.table_id.words ≡ 1) }
    requires pass { seat.me ≡ (pass_of worker seat.me.0.seen, []) }
    requires turn { turn.views ≡ turn_of passes (list_of turn.views) ∷ [] }
    ensures turn { (result.table_id ≡ turn.table_id) × (result.views ≡ turn.views) }
    ensures begins { GrowsByOthers worker seat.me.0.seen (list_of turn.views) }
{
    let mut both = turn.into_seat();
    word.join_seat::<TakesIn>(&mut both, seat);
    word.load::<Ends>(&mut both, 0);
    both.into_badge()
}
