//! Controls that enter the signature.
ghost use Rattle.std.specs.Prelude.{◌≡◌, ◌≤◌, IfOk, OnErr, None};
ghost use Rattle.bg_base.specs.Limits.{most_ports};
ghost use Rattle.bg_base.specs.Signatures.{control_number};
ghost use Rattle.bg_terms.specs.Expansion.{control_of_shape};
ghost use Rattle.bg_terms.specs.Values.{entered, entered_at};
ghost use Rattle.bg_values.specs.Outcome.{GivesAnd};

use bg_base::limits::MOST_CONTROLS;
use bg_base::{Label, Signature, SignatureFault, Value};
use bg_lists::{Duplicate, Mem, Rows};
use bg_terms::Shape;
use bg_values::{Cause, LimitWord, Stop};
use std::alloc::Global;

/// The number of the control of this shape with these arguments. It enters the signature where it is new; where there
/// is no room for it, it is refused as `TooLarge` controls (52). Where it gives no number the signature stays as it was.
/// Costs the logarithm of the number of controls, with a comparison of labels at each step, and time and memory for the
/// label.
pub fn enter(
    alloc: Global,
    at: u32,
    shape: &Shape,
    args: Vec<Value>,
    signature: &mut Signature,
) -> Result<u32, Stop>
    requires small { shape.now.arity ≤ most_ports }
    ensures entered { GivesAnd result signature.new (entered at (control_of_shape shape.now args.items) signature.old) }
    ensures unchanged { OnErr result (signature.new ≡ signature.old) }
{
    let label = label_of(alloc, shape, args)?;
    match signature.find(&label) {
        Some(number) => Ok(number),
        None => add(alloc, at, label, shape, signature),
    }
}

/// The label of this shape with these arguments.
fn label_of(alloc: Global, shape: &Shape, args: Vec<Value>) -> Mem<Label>
    ensures { IfOk result (λ label. label ≡ record { name = shape.now.word; args = args.items }) }
{
    let args = Rows::try_from_vec(args)?;
    let name = shape.word.copy(alloc)?;
    Ok(Label { name, args })
}

/// Appends a control whose label is new.
fn add(
    alloc: Global,
    at: u32,
    label: Label,
    shape: &Shape,
    signature: &mut Signature,
) -> Result<u32, Stop>
    requires small { shape.now.arity ≤ most_ports }
    requires new { control_number signature.old label ≡ None }
    ensures entered { GivesAnd result signature.new
        (entered_at at (record { label = label; arity = shape.now.arity; kind = shape.now.kind }) signature.old None) }
    ensures unchanged { OnErr result (signature.new ≡ signature.old) }
{
    if signature.len() >= MOST_CONTROLS {
        return Err(Stop::refuse(Cause::TooLarge(LimitWord::Controls), at));
    }
    match signature.add(alloc, label, shape.arity, shape.kind) {
        Ok(number) => Ok(number),
        Err(SignatureFault::OutOfMemory) => Err(Stop::OutOfMemory),
        Err(_) => unreachable!(),
    }
}
