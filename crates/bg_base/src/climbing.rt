//! Climbs that leave marks. The value of a place is looked for by going up from it, row by row, and noted at each row on
//! the way, so that no row is climbed from twice.
ghost use Rattle.std.specs.Prelude.{◌≡◌, ℕ, IfOk};
ghost use Rattle.bg_base.specs.Climbing.{AreMarks, IsClimbFound};

use bg_lists::{Mem, mark_at, set_mark};
use std::alloc::Global;

/// What is found at a foothold.
#[derive(Clone, Copy)]
pub enum AtFoothold<V, F> {
    /// The value of the foothold.
    Value(V),
    /// A row, at that position. Its value is that of the foothold, and so is the value of the foothold above.
    Row { at: usize, above: F },
}

/// What can be climbed: footholds have values, and from a foothold with a row a climb goes on to the one above.
pub trait Climbable {
    /// Where a climb stands.
    type Foothold: Copy + Drop;

    /// What is looked for.
    type Value: Copy + Drop;

    /// A climb may come to the foothold.
    ghost is_foothold: { Self → Self.Foothold → Type 0 };

    /// The value of a foothold.
    ghost value: { Self → Self.Foothold → Self.Value };

    /// The value of the row at a position.
    ghost value_at: { Self → ℕ → Self.Value };

    /// A climb from the foothold comes to fewer rows than that.
    ghost height: { Self → Self.Foothold → ℕ };

    /// What is found at the foothold.
    fn find(&self, foothold: Self::Foothold) -> AtFoothold<Self::Value, Self::Foothold>
        requires { is_foothold self.now foothold }
        ensures { IsClimbFound (is_foothold self.now) (value self.now) (value_at self.now) (height self.now) foothold result };
}

/// The value of the foothold. Climbs until a value or a marked row.
fn value_above<C: Climbable>(
    climbable: &C,
    marks: &[Option<C::Value>],
    start: C::Foothold,
) -> C::Value
    requires start { C.is_foothold climbable.now start }
    requires marks { AreMarks (C.value_at climbable.now) marks.now }
    ensures { result ≡ C.value climbable.now start }
{
    let mut foothold = start;
    loop {
        match climbable.find(foothold) {
            AtFoothold::Value(value) => return value,
            AtFoothold::Row { at, above } => match mark_at(marks, at) {
                Some(value) => return value,
                None => foothold = above,
            },
        }
    }
}

/// Marks the rows from the foothold upwards with its value, as far as they are not yet marked.
fn mark_path<C: Climbable>(
    climbable: &C,
    marks: &mut [Option<C::Value>],
    start: C::Foothold,
    value: C::Value,
)
    requires start { C.is_foothold climbable.now start }
    requires marks { AreMarks (C.value_at climbable.now) marks.old }
    requires known { value ≡ C.value climbable.now start }
    ensures { AreMarks (C.value_at climbable.now) marks.new }
{
    let mut foothold = start;
    while let AtFoothold::Row { at, above } = climbable.find(foothold) {
        if mark_at(marks, at).is_some() {
            return;
        }
        set_mark(marks, at, value);
        foothold = above;
    }
}

/// The value of the foothold; the rows on the way are marked then. Climbs from all rows together, over the same marks,
/// look each row up a constant number of times.
pub fn marked_value<C: Climbable>(
    climbable: &C,
    marks: &mut [Option<C::Value>],
    start: C::Foothold,
) -> C::Value
    requires start { C.is_foothold climbable.now start }
    requires marks { AreMarks (C.value_at climbable.now) marks.old }
    ensures value { result ≡ C.value climbable.now start }
    ensures marks { AreMarks (C.value_at climbable.now) marks.new }
{
    let value = value_above(climbable, marks, start);
    mark_path(climbable, marks, start, value);
    value
}

/// A mark for each of that many rows, of none of which anything is known.
pub fn no_marks<V: Copy + Drop>(alloc: Global, rows: usize) -> Mem<Vec<Option<V>>>
    ensures { IfOk result (λ marks. (value_at : ℕ → V) → AreMarks value_at marks.items) }
{
    let mut marks = Vec::new(alloc);
    for _ in 0..rows {
        marks.push(None)?;
    }
    Ok(marks)
}
