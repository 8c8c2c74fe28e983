//! The values of a parameter, as they are kept.
ghost use Rattle.std.specs.Prelude.{◌≡◌, ◌<◌, ◌≤◌, ◌↔◌, ◌+ℤ◌, ◌-ℤ◌, ◌*ℤ◌, pos, false, length, map, slice_get, IfOk, IsTrue, Some};
ghost use Rattle.bg_base.specs.Limits.{most_values};
ghost use Rattle.bg_base.specs.Elementary.{counted};
ghost use Rattle.bg_values.specs.Parameters as definition;

use bg_base::Value;
use bg_lists::{Duplicate, Mem, Rows};
use std::alloc::Global;
use std::marker::Model;
use std::rc::Rc;

/// The values of a parameter, in order, repeats kept. Of a range its two ends and its step are kept and no number
/// between them, and copies share a list: so what is kept is in proportion to the text, and a copy takes no memory.
/// A contract sees the list of the values.
#[derive(Debug, Drop)]
pub struct ParameterValues {
    kept: Kept,
}

/// What is kept of values.
#[derive(Debug, Drop)]
enum Kept {
    Listed(Rc<Rows<Value>>),
    Range(Bounds),
}

impl Model for ParameterValues {
    ghost use Rattle.std.specs.Prelude.{List};
    ghost use Rattle.bg_base.specs.declared.labels.Value.{Value as OneValue};
    ghost use Rattle.bg_values.specs.KeptValues.{IsKeptRange, values_kept};

    ghost Value = { List OneValue };

    ghost view = { λ values. values_kept values.kept };

    ghost invariant = { λ values. IsKeptRange values.kept };
}

impl ParameterValues {
    ghost use Rattle.std.specs.Prelude.{◌≡◌, ◌≤◌, ◌<◌, ◌↔◌, false, length, map, slice_get, IfOk, IsTrue, Some};
    ghost use Rattle.bg_base.specs.Elementary.{counted};
    ghost use Rattle.bg_values.specs.Parameters as definition;

    /// These values, in this order. There is no memory for 4,294,967,295 or more. Takes constant time.
    pub fn listed(alloc: Global, values: Vec<Value>) -> Mem<ParameterValues>
        ensures { IfOk result (λ made. made ≡ values.items) }
    {
        let rows = Rows::try_from_vec(values)?;
        let shared = Rc::new(alloc, rows)?;
        Ok(ParameterValues {
            kept: Kept::Listed(shared),
        })
    }

    /// The numbers of a range that is not empty and has at most 4,096. Takes no memory, and constant time.
    pub(crate) fn range(bounds: Bounds) -> ParameterValues
        requires filled { definition.is_empty bounds.first bounds.step bounds.end ≡ false }
        requires few { definition.count bounds.first bounds.step bounds.end ≤ most_values }
        ensures { result ≡ map (definition.number_after bounds.first bounds.step) (counted 0 (definition.count bounds.first bounds.step bounds.end)) }
    {
        ParameterValues {
            kept: Kept::Range(bounds),
        }
    }

    /// How many values there are. Takes constant time.
    pub fn len(&self) -> u32
        ensures { result ≡ length self.now }
    {
        match &self.kept {
            Kept::Listed(rows) => rows.len(),
            Kept::Range(bounds) => count_of(bounds),
        }
    }

    /// Whether there is no value. Takes constant time.
    pub fn is_empty(&self) -> bool
        ensures { IsTrue result ↔ (length self.now ≡ 0) }
    {
        self.len() == 0
    }

    /// The value at that place, counted from 0. Takes time and memory in proportion to the value.
    pub fn value(&self, alloc: Global, place: u32) -> Mem<Value>
        requires { place < length self.now }
        ensures { IfOk result (λ value. slice_get self.now place ≡ Some value) }
    {
        match &self.kept {
            Kept::Listed(rows) => value_at(alloc, rows.as_ref(), place),
            Kept::Range(bounds) => Ok(Value::Int(number_after(bounds, place))),
        }
    }
}

impl Duplicate for ParameterValues {
    fn copy(&self, _alloc: Global) -> Mem<ParameterValues> {
        let kept = match &self.kept {
            Kept::Listed(rows) => Kept::Listed(rows.clone()?),
            Kept::Range(bounds) => Kept::Range(*bounds),
        };
        Ok(ParameterValues { kept })
    }
}

/// The value at that place of a list.
fn value_at(alloc: Global, rows: &Rows<Value>, place: u32) -> Mem<Value>
    requires { place < length rows.now }
    ensures { IfOk result (λ value. slice_get rows.now place ≡ Some value) }
{
    rows.as_slice()[place as usize].copy(alloc)
}

// ---- ranges

/// The three numbers of a range: the first, the step from each to the next, and the end, which none passes.
#[derive(Clone, Copy, Debug)]
pub(crate) struct Bounds {
    pub(crate) first: i64,
    pub(crate) step: i64,
    pub(crate) end: i64,
}

/// How many steps go from the first number towards the end and not beyond.
pub(crate) fn steps_of(bounds: &Bounds) -> u128
    requires { definition.is_empty bounds.now.first bounds.now.step bounds.now.end ≡ false }
    ensures { result ≡ definition.steps_between bounds.now.first bounds.now.step bounds.now.end }
{
    difference_of(bounds).unsigned_abs() / u128::from(bounds.step.unsigned_abs())
}

/// How far the end lies above the first number.
fn difference_of(bounds: &Bounds) -> i128
    ensures { result ≡ bounds.now.end -ℤ bounds.now.first }
{
    i128::from(bounds.end) - i128::from(bounds.first)
}

/// How many numbers a range has that has at most 4,096.
fn count_of(bounds: &Bounds) -> u32
    requires filled { definition.is_empty bounds.now.first bounds.now.step bounds.now.end ≡ false }
    requires few { definition.count bounds.now.first bounds.now.step bounds.now.end ≤ most_values }
    ensures { result ≡ definition.count bounds.now.first bounds.now.step bounds.now.end }
{
    steps_of(bounds) as u32 + 1
}

/// The number after so many steps, few enough not to go beyond the end.
fn number_after(bounds: &Bounds, steps: u32) -> i64
    requires filled { definition.is_empty bounds.now.first bounds.now.step bounds.now.end ≡ false }
    requires within { steps < definition.count bounds.now.first bounds.now.step bounds.now.end }
    ensures { Value.Int result ≡ definition.number_after bounds.now.first bounds.now.step steps }
{
    // The ends are read, so that the proof knows that 64 bits hold them and what lies between.
    let _ends = (bounds.first, bounds.end);
    number_beyond(bounds, steps) as i64
}

/// The number after so many steps, wherever it lies.
fn number_beyond(bounds: &Bounds, steps: u32) -> i128
    ensures { result ≡ bounds.now.first +ℤ (pos steps *ℤ bounds.now.step) }
{
    i128::from(bounds.first) + i128::from(steps) * i128::from(bounds.step)
}
