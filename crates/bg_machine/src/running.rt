//! A run of the machine.
ghost use Rattle.std.specs.Prelude.{◌≡◌, slice_get, option_copied};
ghost use Rattle.bg_machine.specs.Calls.{AreSmall};
ghost use Rattle.bg_machine.specs.Machine as definition;
ghost use Rattle.bg_terms.specs.Read.{shapes_of};
ghost use Rattle.bg_values.specs.Outcome.{Goes};

use crate::machine::Machine;
use bg_base::Value;
use bg_code::{Arguments, Operation};
use bg_lists::Rows;
use bg_terms::{ControlEntry, Shape};
use bg_values::{Cause, NameTable, Stop};
use std::alloc::Global;

/// Takes the operations in order, where these controls are visible, the definitions stand as their codes, and the
/// formals have these values. No arity is above 16. A call of a definition runs its code on the same machine.
#[cycle(machine)]
pub(crate) fn run(
    alloc: Global,
    controls: &NameTable<ControlEntry>,
    definitions: &[Rows<Operation>],
    env: &[Value],
    operations: &[Operation],
    machine: &mut Machine,
) -> Result<(), Stop>
    requires small { AreSmall controls.now }
    ensures { Goes result machine.new (definition.run (shapes_of controls.now) (definition.running_of (shapes_of controls.now) definitions.now) env.now operations.now machine.old) }
{
    for operation in operations {
        take_operation(alloc, controls, definitions, env, operation, machine)?;
    }
    Ok(())
}

/// Takes one operation.
#[cycle(machine)]
fn take_operation(
    alloc: Global,
    controls: &NameTable<ControlEntry>,
    definitions: &[Rows<Operation>],
    env: &[Value],
    operation: &Operation,
    machine: &mut Machine,
) -> Result<(), Stop>
    requires small { AreSmall controls.now }
    ensures { Goes result machine.new (definition.step (shapes_of controls.now) (definition.running_of (shapes_of controls.now) definitions.now) env.now operation.now machine.old) }
{
    match operation {
        Operation::Node {
            at,
            control,
            arguments,
            ports,
        } => machine.put_node(
            alloc,
            find_shape(controls, *control),
            env,
            *at,
            arguments,
            ports,
        ),
        Operation::Reference {
            at,
            definition,
            arguments,
        } => refer(
            alloc,
            controls,
            definitions,
            env,
            *at,
            *definition,
            arguments,
            machine,
        ),
        Operation::Names { at, names } => machine.put_names(alloc, *at, names),
        Operation::Identity { at, width, names } => {
            machine.put_identity(alloc, *at, *width, names)
        }
        Operation::Merger { at, width } => machine.put_merger(alloc, *at, *width),
        Operation::Barren(at) => machine.put_barren(alloc, *at),
        Operation::Empty(at) => machine.put_empty(alloc, *at),
        Operation::Count(at) => {
            machine.count(*at)?;
            Ok(())
        }
        Operation::Enter(at) => {
            machine.go_deeper(*at)?;
            Ok(())
        }
        Operation::Leave => {
            machine.come_back();
            Ok(())
        }
        Operation::Open => machine.open(),
        Operation::Close { at, name } => machine.close(alloc, *at, name),
        Operation::Nest { at, is_atom } => machine.nest(*at, *is_atom),
        Operation::Join { operation, at } => machine.join(alloc, *operation, *at),
    }
}

/// A reference: a term, its arguments, then the definition.
#[cycle(machine)]
fn refer(
    alloc: Global,
    controls: &NameTable<ControlEntry>,
    definitions: &[Rows<Operation>],
    env: &[Value],
    at: u32,
    number: u32,
    arguments: &Arguments,
    machine: &mut Machine,
) -> Result<(), Stop>
    requires small { AreSmall controls.now }
    ensures { Goes result machine.new (definition.referred (shapes_of controls.now) (definition.running_of (shapes_of controls.now) definitions.now) env.now at number arguments.now machine.old) }
{
    machine.count(at)?;
    let args = arguments.values(alloc, env)?;
    call(
        alloc,
        controls,
        definitions,
        args.as_slice(),
        at,
        number,
        machine,
    )
}

/// Runs the code of a definition, which may call those before it.
#[cycle(machine)]
#[tactic(auto, using(crate::proofs::Calls::called_at, crate::proofs::Calls::not_called))]
fn call(
    alloc: Global,
    controls: &NameTable<ControlEntry>,
    definitions: &[Rows<Operation>],
    args: &[Value],
    at: u32,
    number: u32,
    machine: &mut Machine,
) -> Result<(), Stop>
    requires small { AreSmall controls.now }
    ensures { Goes result machine.new (definition.called at (slice_get (definition.running_of (shapes_of controls.now) definitions.now) number) args.now machine.old) }
{
    match find_definition(definitions, number) {
        Some(code) => run(
            alloc,
            controls,
            &definitions[..number as usize],
            args,
            code.as_slice(),
            machine,
        ),
        None => Err(Stop::refuse(Cause::UnknownName, at)),
    }
}

/// The shape of the control with that number.
fn find_shape(controls: &NameTable<ControlEntry>, number: u32) -> Option<&Shape>
    ensures { option_copied result ≡ slice_get (shapes_of controls.now) number }
{
    match controls.entry(number) {
        Some(found) => Some(&found.value.shape),
        None => None,
    }
}

fn find_definition(definitions: &[Rows<Operation>], number: u32) -> Option<&Rows<Operation>>
    ensures { option_copied result ≡ slice_get definitions.now number }
{
    definitions.get(number as usize)
}
