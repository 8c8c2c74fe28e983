//! Labels.
ghost use Rattle.std.specs.Prelude.{◌≡◌, pos, negsuc};
ghost use Rattle.bg_listing.specs.Limits.{greatest_int};
ghost use Rattle.bg_listing.specs.Answers.{GivesPart, GivesOrFails};
ghost use Rattle.bg_listing.specs.Combinators.{mapped};
ghost use Rattle.bg_listing.specs.Reading as reading;

use crate::bytes::{skip, text_bytes};
use crate::chain::{Piece, read_chain};
use crate::fault::{NotThere, PartFault};
use crate::names::upper_word;
use crate::number::number_up_to;
use bg_base::{Label, Text, Value};
use bg_lists::Rows;
use std::alloc::Global;

/// The longest label in front, and the bytes behind it.
#[tactic(auto, unfolding(crate::specs::Reading::label_at))]
pub(crate) fn label(alloc: Global, bytes: &[u8]) -> Result<(Label, &[u8]), PartFault>
    ensures { GivesPart (λ x. (x.0, x.1.now)) result (reading.label_at bytes.now) }
{
    let (name, rest) = upper_word(alloc, bytes)?;
    let (args, rest) = optional_args(alloc, rest)?;
    Ok((Label { name, args }, rest))
}

/// The arguments in front, none where no well-formed list of arguments stands there.
fn optional_args(alloc: Global, bytes: &[u8]) -> Result<(Rows<Value>, &[u8]), PartFault>
    ensures { GivesPart (λ x. (x.0, x.1.now)) result (reading.optional_args_at bytes.now) }
{
    match args(alloc, bytes) {
        Ok((values, rest)) => Ok((Rows::try_from_vec(values)?, rest)),
        Err(PartFault::NotThere) => Ok((Rows::from_vec(Vec::new(alloc)), bytes)),
        Err(PartFault::OutOfMemory) => Err(PartFault::OutOfMemory),
    }
}

#[tactic(auto, unfolding(crate::specs::Reading::args_at))]
fn args(alloc: Global, bytes: &[u8]) -> Result<(Vec<Value>, &[u8]), PartFault>
    ensures { GivesPart (λ x. (x.0.items, x.1.now)) result (reading.args_at bytes.now) }
{
    let rest = skip(bytes, b"(")?;
    let (first, rest) = value(alloc, rest)?;
    let (mut values, rest) = read_chain::<Value>(alloc, b')', b',', rest)?;
    values.insert(0, first)?;
    Ok((values, rest))
}

impl Piece for Value {
    ghost use Rattle.bg_listing.specs.Reading.{value_at};

    ghost piece_at = { value_at };

    fn read(alloc: Global, bytes: &[u8]) -> Result<(Value, &[u8]), PartFault> {
        value(alloc, bytes)
    }
}

#[tactic(auto, unfolding(crate::specs::Reading::value_at))]
fn value(alloc: Global, bytes: &[u8]) -> Result<(Value, &[u8]), PartFault>
    ensures { GivesPart (λ x. (x.0, x.1.now)) result (reading.value_at bytes.now) }
{
    match bytes {
        [] => Err(PartFault::NotThere),
        [b'"', rest @ ..] => {
            let (text, rest) = quoted(alloc, rest)?;
            Ok((Value::Words(text), rest))
        }
        [b'-', rest @ ..] => {
            let (number, rest) = negative(rest)?;
            Ok((Value::Int(number), rest))
        }
        [_, ..] => {
            let (number, rest) = positive(bytes)?;
            Ok((Value::Int(number), rest))
        }
    }
}

/// The text behind its opening quote.
#[tactic(auto, unfolding(crate::specs::Reading::quoted_at))]
fn quoted(alloc: Global, bytes: &[u8]) -> Result<(Text, &[u8]), PartFault>
    ensures { GivesPart (λ x. (x.0, x.1.now)) result (reading.quoted_at bytes.now) }
{
    let (text, rest) = text_bytes(bytes);
    let rest = skip(rest, b"\"")?;
    Ok((Text::from_bytes(alloc, text)?, rest))
}

/// The greatest whole number of 64 bits with sign.
const GREATEST_INT: u64 = 9_223_372_036_854_775_807;

fn positive(bytes: &[u8]) -> Result<(i64, &[u8]), NotThere>
    ensures { GivesOrFails (λ x. (x.0, x.1.now)) result (mapped pos (reading.number_at greatest_int bytes.now)) }
{
    match number_up_to(bytes, GREATEST_INT) {
        Some((number, rest)) => Ok((number as i64, rest)),
        None => Err(NotThere),
    }
}

/// The negative number behind its `-`.
#[tactic(auto, unfolding(crate::specs::Reading::negative_at))]
fn negative(bytes: &[u8]) -> Result<(i64, &[u8]), NotThere>
    ensures { GivesOrFails (λ x. (x.0, x.1.now)) result (mapped negsuc (reading.negative_at bytes.now)) }
{
    match number_up_to(bytes, GREATEST_INT + 1) {
        Some((number, rest)) => {
            if number == 0 {
                Err(NotThere)
            } else {
                Ok((-1 - ((number - 1) as i64), rest))
            }
        }
        None => Err(NotThere),
    }
}
