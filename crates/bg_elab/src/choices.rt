//! The choices of values for the parameters of a reference.
ghost use Rattle.std.specs.Prelude.{◌≡◌, ◌<◌, ◌%◌, Some, length, reverse, slice_get, IfOk};
ghost use Rattle.bg_elab.specs.Choices.{choices};

use bg_base::Value;
use bg_lists::{Mem, Rows};
use bg_values::ParameterValues;
use std::alloc::Global;

/// The choice with that number, counted from 0, of one value from each list, where the value of the first list varies
/// slowest; none behind the last choice, and none at all where a list is empty. Of no lists there is one choice, which
/// is empty. Makes no other choice, so it costs time and memory in proportion to the number of lists and to the texts
/// among the values that it takes. Of 4,294,967,295 lists or more there is no memory for a choice.
pub fn choice(alloc: Global, lists: &[ParameterValues], number: u32) -> Mem<Option<Rows<Value>>>
    ensures { IfOk result (λ found. found ≡ slice_get (choices lists.now) number) }
{
    let mut left = number;
    let mut at = lists.len();
    let mut values = Vec::new(alloc);
    while at > 0 {
        at -= 1;
        let list = &lists[at];
        if list.is_empty() {
            return Ok(None);
        }
        values.push(digit(alloc, list, left)?)?;
        left /= list.len();
    }
    if left > 0 {
        return Ok(None);
    }
    let values = last_first(values)?;
    Ok(Some(values))
}

/// The value with the number that is the last digit of that one, where the base is the length of the list.
fn digit(alloc: Global, list: &ParameterValues, number: u32) -> Mem<Value>
    requires { 0 < length list.now }
    ensures { IfOk result (λ value. slice_get list.now (number % length list.now) ≡ Some value) }
{
    list.value(alloc, number % list.len())
}

/// The values in reverse.
fn last_first(mut values: Vec<Value>) -> Mem<Rows<Value>>
    ensures { IfOk result (λ rows. rows ≡ reverse values.items) }
{
    values.as_mut_slice().reverse();
    Rows::try_from_vec(values)
}
