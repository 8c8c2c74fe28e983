use bg_base::Value;
use bg_elab::choice;
use bg_lists::{Mem, OutOfMemory};
use bg_values::ParameterValues;
use std::alloc::Global;

/// So many numbers, from the first on.
fn list(alloc: Global, first: i64, count: i64) -> Mem<ParameterValues> {
    let mut values = Vec::new(alloc);
    for place in 0..count {
        values.push(Value::Int(first.wrapping_add(place)))?;
    }
    ParameterValues::listed(alloc, values)
}

/// The values of the choice with that number, as the digits of one number; none where there is no choice.
fn chosen(alloc: Global, lists: &[ParameterValues], number: u32) -> Mem<Option<i64>> {
    match choice(alloc, lists, number)? {
        Some(values) => Ok(Some(digits_of(values.as_slice()))),
        None => Ok(None),
    }
}

fn digits_of(values: &[Value]) -> i64 {
    let mut digits = 0i64;
    for value in values {
        if let Value::Int(digit) = value {
            digits = digits.wrapping_mul(10).wrapping_add(*digit);
        }
    }
    digits
}

/// The digits of the choice with that number of one value of 1, 2; of 3; and of 4, 5, 6.
fn of_three(alloc: Global, number: u32) -> Mem<Option<i64>> {
    match (list(alloc, 1, 2), list(alloc, 3, 1), list(alloc, 4, 3)) {
        (Ok(first), Ok(second), Ok(third)) => chosen(alloc, &[first, second, third], number),
        _ => Err(OutOfMemory),
    }
}

#[test]
fn there_are_as_many_choices_as_values_by_values(rt: HostRuntime) -> Mem<()> {
    for &(number, digits) in [
        (0, Some(134)),
        (2, Some(136)),
        (3, Some(234)),
        (5, Some(236)),
        (6, None),
        (4_294_967_295, None),
    ]
    .iter()
    {
        assert!(rt; of_three(rt.alloc(), number)? == digits);
    }
    Ok(())
}

/// The digits of the first choice of an empty list.
fn of_none(alloc: Global) -> Mem<Option<i64>> {
    let lists = [list(alloc, 1, 0)?];
    chosen(alloc, &lists, 0)
}

#[test]
fn of_no_lists_there_is_one_choice_and_of_an_empty_one_none(rt: HostRuntime) -> Mem<()> {
    assert!(rt; chosen(rt.alloc(), &[], 0)? == Some(0));
    assert!(rt; chosen(rt.alloc(), &[], 1)? == None);
    assert!(rt; of_none(rt.alloc())? == None);
    Ok(())
}
