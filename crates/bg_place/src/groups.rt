//! Rows by the place that they lie in.
ghost use Rattle.std.specs.Prelude.{◌≡◌, ◌<◌, ◌-◌, ◌^◌, length, map, filter, IfOk};
ghost use Rattle.bg_place.specs.Places as defined;
ghost use Rattle.bg_place.specs.Rows as row;

use crate::ParentRow;
use bg_base::Place;
use bg_lists::Mem;
use std::alloc::Global;
use std::marker::Model;

/// Rows put in order by their places, and beside them their numbers alone. A contract sees the rows.
#[derive(Drop)]
pub struct Groups {
    rows: Vec<ParentRow>,
    numbers: Vec<u32>,
}

impl Model for Groups {
    ghost use Rattle.std.specs.Prelude.{List};
    ghost use Rattle.bg_place.specs.declared.graph.ParentRow.{ParentRow as RowOfParent};
    ghost use Rattle.bg_place.specs.Rows.{IsGroups};

    ghost Value = { List RowOfParent };

    ghost view = { λ groups. groups.rows.items };

    ghost invariant = { λ groups. IsGroups groups.rows.items groups.numbers.items };
}

impl Groups {
    /// The rows by their places; rows of one place stay in their order.
    pub fn of(alloc: Global, rows: Vec<ParentRow>) -> Mem<Groups>
        ensures { IfOk result (λ groups. row.HasGroups groups rows.items) }
    {
        let mut rows = rows;
        rows.sort_by_key(|row| rank(row.parent))?;
        let numbers = numbers(alloc, rows.as_slice())?;
        Ok(Groups { rows, numbers })
    }

    /// The numbers of the rows that lie in the place, in their order. Takes no memory; logarithmic.
    pub fn members_of(&self, place: Place) -> &[u32]
        ensures { result.now ≡ defined.numbers_in place self.now }
    {
        let wanted = rank(place);
        let start = self.rows.partition_point(|row| rank(row.parent) < wanted);
        let rest = &self.rows[start..];
        let count = rest.partition_point(|row| rank(row.parent) <= wanted);
        &self.numbers[start..start + count]
    }
}

/// The position of a place among all places.
fn rank(place: Place) -> u64
    ensures { result ≡ row.place_rank place }
{
    match place {
        Place::Node(node) => node as u64 * 2,
        Place::Region(region) => region as u64 * 2 + 1,
    }
}

/// The numbers of the rows.
fn numbers(alloc: Global, rows: &[ParentRow]) -> Mem<Vec<u32>>
    ensures { IfOk result (λ made. made.items ≡ map defined.node_number rows.now) }
{
    let mut made = Vec::new(alloc);
    for row in rows {
        made.push(row.node)?;
    }
    Ok(made)
}

/// A row for each place, numbered from 0.
pub fn numbered(alloc: Global, places: &[Place]) -> Mem<Vec<ParentRow>>
    requires few { length places.now < 2 ^ 32 - 1 }
    ensures { IfOk result (λ rows. rows.items ≡ defined.numbered 0 places.now) }
{
    let mut rows = Vec::new(alloc);
    for (at, place) in places.iter().enumerate() {
        rows.push(ParentRow {
            node: at as u32,
            parent: *place,
        })?;
    }
    Ok(rows)
}
