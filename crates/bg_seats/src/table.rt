//! The history word, its passes and its turn.
ghost use Rattle.std.specs.Prelude.{◌≡◌, ◌≤◌, ◌<◌, ◌++◌, ◌∷◌, [], length, IfOk};
ghost use Rattle.std.specs.Result.{OnOk};
ghost use Rattle.bg_base.specs.Limits.{most_steps};
ghost use Rattle.bg_seats.specs.Histories.{GrowsByOthers, WorkersBelow, new_passes};
ghost use Rattle.bg_seats.specs.Seating.{turn_of};

use crate::knowledge::Knowledge;
use crate::rule::{GivesPass, Loads, Seating};
use crate::steps::{
    HistorySeat, HistoryWord, compare_with_history, record_entry, see_history, take_in_pass,
};
use atomic_table::{Badge, Table};
use bg_base::Entry;
use bg_lists::Mem;
use std::alloc::Global;
use std::marker::{Brand, Model};
use std::mem;

/// The history of a host, as one word in memory: the number of its entries. The entries themselves are kept by the
/// caller. Threads share it by `&`; a contract sees which table it is.
#[derive(Drop)]
pub struct HistoryTable {
    table: Table<u8, Knowledge, (), Seating, Global>,
}

impl Model for HistoryTable {
    ghost use Rattle.std.specs.Prelude.{◌≡◌};
    ghost use Rattle.atomic_table.specs.Seated.{TableId, table_id_coded};

    ghost Value = { TableId };

    ghost coded = { table_id_coded };

    ghost view = { λ history. history.table.shared.table_id };

    ghost invariant = { λ history. history.table.shared.table_id.words ≡ 1 };
}

/// What one worker knows: its number, which no other pass of the table has, and the entries that it has seen. A contract
/// sees these entries; in memory the pass is the number alone. A pass may be dropped at any time.
#[derive(Drop)]
pub struct Pass {
    seat: HistorySeat,
    worker: u32,
}

impl Model for Pass {
    ghost use Rattle.std.specs.Prelude.{◌≡◌, []};
    ghost use Rattle.bg_seats.specs.Histories.{PassView};
    ghost use Rattle.bg_seats.specs.Seating.{pass_of};

    ghost Value = { PassView };

    ghost view = { λ pass. record { table = pass.seat.table_id; worker = pass.worker; seen = pass.seat.me.0.seen } };

    ghost invariant = { λ pass. pass.seat.me ≡ (pass_of pass.worker pass.seat.me.0.seen, []) };
}

/// The right to record: a table has one. A contract sees the list of all entries and how many passes there are; in memory
/// the turn is the number of passes alone. It belongs under the lock that guards the host.
#[derive(Drop)]
pub struct Turn {
    badge: Badge<Knowledge>,
    passes: u32,
}

impl Model for Turn {
    ghost use Rattle.std.specs.Prelude.{◌≡◌, ◌∷◌, []};
    ghost use Rattle.bg_seats.specs.Histories.{TurnView};
    ghost use Rattle.bg_seats.specs.Seating.{turn_of, list_of};

    ghost Value = { TurnView };

    ghost view = { λ turn. record { table = turn.badge.table_id; passes = turn.passes; list = list_of turn.badge.views } };

    ghost invariant = { λ turn. turn.badge.views ≡ turn_of turn.passes (list_of turn.badge.views) ∷ [] };
}

/// The number of the worker whose pass it is, counted from 0.
pub fn worker(pass: &Pass) -> u32
    ensures { result ≡ pass.now.worker }
{
    pass.worker
}

/// So many passes, of the workers from 0 on.
fn give_passes(
    word: &HistoryWord,
    seat: &mut HistorySeat,
    given: &mut Vec<Pass>,
    passes: u32,
) -> Mem<()>
    requires tables { (seat.old.table_id ≡ word.now.table_id) × (word.now.table_id.words ≡ 1) }
    requires turn { seat.old.me ≡ (turn_of 0 [], []) }
    requires empty { given.old.items ≡ [] }
    ensures given { OnOk result (given.new.items ≡ new_passes word.now.table_id passes) }
    ensures turn { OnOk result ((seat.new.me ≡ (turn_of passes [], [])) × (seat.new.table_id ≡ seat.old.table_id)) }
{
    for number in 0..passes {
        let pass = word.split_seat::<GivesPass>(seat);
        given.push(Pass {
            seat: pass,
            worker: number,
        })?;
    }
    Ok(())
}

impl HistoryTable {
    /// An empty history with 1 to 64 passes, of the workers from 0 on in their order, and its turn. It refuses for want of
    /// memory alone. Takes memory for one word, and four bytes for each pass.
    pub fn new(alloc: Global, passes: u32) -> Mem<(HistoryTable, Vec<Pass>, Turn)>
        requires { (1 ≤ passes) × (passes ≤ 64) }
        ensures passes { IfOk result (λ made. made.1.items ≡ new_passes made.0 passes) }
        ensures turn { IfOk result (λ made. made.2 ≡ record { table = made.0; passes = passes; list = [] }) }
    {
        let (table, mut seat) = Table::<u8, Knowledge, (), Seating, Global>::of_words(
            alloc,
            &[0],
            &(),
        )?;
        let mut given = Vec::new(alloc);
        give_passes(&table.shared, &mut seat, &mut given, passes)?;
        let turn = Turn {
            badge: seat.into_badge(),
            passes,
        };
        Ok((HistoryTable { table }, given, turn))
    }

    /// How many entries there are, at least those that the pass has seen. It needs no turn, so others may record at the
    /// same time: the number may be an earlier one when the caller reads it. One load; takes no memory.
    pub fn load(&self, pass: &mut Pass) -> u32
        requires { pass.old.table ≡ self.now }
        ensures same { pass.new ≡ pass.old }
        ensures seen { length pass.old.seen ≤ result }
        ensures short { result ≤ most_steps }
    {
        self.table.shared.load::<Loads>(&mut pass.seat, 0) as u32
    }

    /// The pass has then seen all entries; the number of them. What it had seen is a beginning of them, and no entry behind
    /// that is of its worker. Three loads; takes no memory.
    pub fn see(&self, pass: &mut Pass, turn: &mut Turn) -> u32
        requires tables { (pass.old.table ≡ self.now) × (turn.old.table ≡ self.now) }
        ensures pass { pass.new ≡ record pass.old { seen = turn.old.list } }
        ensures turn { turn.new ≡ turn.old }
        ensures count { result ≡ length turn.old.list }
        ensures grows { GrowsByOthers pass.old.worker pass.old.seen turn.old.list }
        ensures numbered { WorkersBelow turn.old.passes turn.old.list × (pass.old.worker < turn.old.passes) }
        ensures short { length turn.old.list ≤ most_steps }
    {
        let badge = mem::replace(&mut turn.badge, Badge::blank());
        let (count, badge) = see_history(
            &self.table.shared,
            &mut pass.seat,
            pass.worker,
            badge,
            turn.passes,
        );
        turn.badge = badge;
        count as u32
    }

    /// Tells what `see` tells, and leaves the pass as it is: a caller that may still refuse learns that what the pass has
    /// seen is a beginning of all entries. Costs what `see` costs.
    pub fn compare(&self, pass: &mut Pass, turn: &mut Turn)
        requires tables { (pass.old.table ≡ self.now) × (turn.old.table ≡ self.now) }
        ensures pass { pass.new ≡ pass.old }
        ensures turn { turn.new ≡ turn.old }
        ensures grows { GrowsByOthers pass.old.worker pass.old.seen turn.old.list }
        ensures numbered { WorkersBelow turn.old.passes turn.old.list × (pass.old.worker < turn.old.passes) }
        ensures short { length turn.old.list ≤ most_steps }
    {
        let badge = mem::replace(&mut turn.badge, Badge::blank());
        let (_count, badge) = compare_with_history(
            &self.table.shared,
            &mut pass.seat,
            pass.worker,
            badge,
            turn.passes,
        );
        turn.badge = badge;
    }

    /// Records an entry of the pass's worker, where the pass has seen all entries and fewer than 100,000 are there; the
    /// number of entries then. The entry itself is not kept. One addition and two loads; takes no memory.
    pub fn append(&self, pass: &mut Pass, turn: &mut Turn, entry: &Entry) -> u32
        requires tables { (pass.old.table ≡ self.now) × (turn.old.table ≡ self.now) }
        requires seen { pass.old.seen ≡ turn.old.list }
        requires entry { entry.now.worker ≡ pass.old.worker }
        requires room { length turn.old.list < most_steps }
        ensures pass { pass.new ≡ record pass.old { seen = turn.old.list ++ entry.now ∷ [] } }
        ensures turn { turn.new ≡ record turn.old { list = turn.old.list ++ entry.now ∷ [] } }
        ensures count { result ≡ length turn.new.list }
        ensures numbered { WorkersBelow turn.old.passes turn.new.list }
    {
        let badge = mem::replace(&mut turn.badge, Badge::blank());
        let (count, badge) = record_entry::<Brand>(
            &self.table.shared,
            &mut pass.seat,
            pass.worker,
            badge,
            turn.passes,
            entry,
        );
        turn.badge = badge;
        count as u32 + 1
    }

    /// Ends a pass. What it had seen is a beginning of all entries, and no entry behind that is of its worker. Two loads;
    /// takes no memory.
    pub fn end(&self, pass: Pass, into: &mut Turn)
        requires tables { (pass.table ≡ self.now) × (into.old.table ≡ self.now) }
        ensures same { into.new ≡ into.old }
        ensures begins { GrowsByOthers pass.worker pass.seen into.old.list }
    {
        let badge = mem::replace(&mut into.badge, Badge::blank());
        let Pass { seat, worker } = pass;
        into.badge = take_in_pass(&self.table.shared, badge, into.passes, seat, worker);
    }
}
