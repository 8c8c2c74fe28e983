//! The operators of the model language on the two bigraphs on top of a stack.
ghost use Rattle.std.specs.Prelude.{◌≡◌, true, false};
ghost use Rattle.bg_builder.specs.Stack.{two_follow};
ghost use Rattle.bg_machine.specs.Faults as faults;
ghost use Rattle.bg_machine.specs.States.{of_two};
ghost use Rattle.bg_terms.specs.declared.shape.BinaryOperation.TheVariants as operations;
ghost use Rattle.bg_terms.specs.Values as definition;
ghost use Rattle.bg_values.specs.Outcome.{Goes};

use bg_algebra::AlgebraFault;
use bg_builder::BigStack;
use bg_terms::BinaryOperation;
use bg_values::{Cause, Stop};
use std::alloc::Global;

/// What the operation makes of the two bigraphs on top, the numbers of the topmost one behind those of the other, in their
/// place; or its refusal at the operator: 11 for `*`, 13 for `+`, 14 for `||` and `|`. Costs time in proportion to the
/// topmost one, up to a logarithm; and to the other one where `|` finds it with another number of regions than one.
pub(crate) fn combine(
    alloc: Global,
    operation: BinaryOperation,
    at: u32,
    stack: &mut BigStack,
) -> Result<(), Stop>
    requires follow { two_follow stack.old ≡ true }
    ensures { Goes result stack.new (of_two (definition.combined operation at) stack.old) }
{
    match operation {
        BinaryOperation::Composition => compose(alloc, at, stack),
        BinaryOperation::Tensor => put_apart(at, stack),
        BinaryOperation::Parallel => put_beside(at, stack),
        BinaryOperation::Merge => merge(at, stack),
    }
}

/// `G * F`
#[tactic(auto, using(crate::proofs::Conditions::faces_agree_so, crate::proofs::Conditions::faces_agree_not))]
fn compose(alloc: Global, at: u32, stack: &mut BigStack) -> Result<(), Stop>
    requires follow { two_follow stack.old ≡ true }
    ensures { Goes result stack.new (of_two (definition.combined operations.Composition at) stack.old) }
{
    told(at, stack.compose(alloc))
}

/// `F + G`
#[tactic(auto, using(crate::proofs::Conditions::names_meet_so, crate::proofs::Conditions::names_meet_not))]
fn put_apart(at: u32, stack: &mut BigStack) -> Result<(), Stop>
    requires follow { two_follow stack.old ≡ true }
    ensures { Goes result stack.new (of_two (definition.combined operations.Tensor at) stack.old) }
{
    told(at, stack.tensor())
}

/// `F || G`
#[tactic(auto, using(crate::proofs::Conditions::inner_meets_so, crate::proofs::Conditions::inner_meets_not))]
fn put_beside(at: u32, stack: &mut BigStack) -> Result<(), Stop>
    requires follow { two_follow stack.old ≡ true }
    ensures { Goes result stack.new (of_two (definition.combined operations.Parallel at) stack.old) }
{
    told(at, stack.parallel())
}

/// `F | G`
#[tactic(auto, using(crate::proofs::Conditions::inner_meets_so, crate::proofs::Conditions::inner_meets_not))]
fn merge(at: u32, stack: &mut BigStack) -> Result<(), Stop>
    requires follow { two_follow stack.old ≡ true }
    ensures { Goes result stack.new (of_two (definition.combined operations.Merge at) stack.old) }
{
    told(at, stack.merge())
}

/// `F.G`, the numbers of G behind those of F, or its refusal at the dot: 44 where F is written as an atom, then 17 and
/// 15. Costs time in proportion to G, up to a logarithm.
pub(crate) fn nest(at: u32, is_atom: bool, stack: &mut BigStack) -> Result<(), Stop>
    requires follow { two_follow stack.old ≡ true }
    ensures { Goes result stack.new (of_two (definition.nested at is_atom) stack.old) }
{
    if is_atom {
        return Err(Stop::refuse(Cause::AtomicHasChild, at));
    }
    put_inside(at, stack)
}

/// `F.G`, where F is not written as an atom.
fn put_inside(at: u32, stack: &mut BigStack) -> Result<(), Stop>
    requires follow { two_follow stack.old ≡ true }
    ensures { Goes result stack.new (of_two (definition.nested at false) stack.old) }
{
    told(at, stack.nest())
}

/// What was made, or what its operator, at that token, tells of the fault.
fn told(at: u32, made: Result<(), AlgebraFault>) -> Result<(), Stop>
    ensures { result ≡ faults.told at made }
{
    match made {
        Ok(()) => Ok(()),
        Err(fault) => Err(stop_for(at, fault)),
    }
}

/// What an operator, at that token, tells of a fault of the algebra: the refusal by the cause of the same number, or
/// want of memory. The operands of an operator share no node and no edge, and none of them closes a name: these two
/// faults would be told by 31, as code of no expression is.
fn stop_for(at: u32, fault: AlgebraFault) -> Stop
    ensures { result ≡ faults.stop_for at fault }
{
    let cause = match fault {
        AlgebraFault::FacesDiffer => Cause::FacesDiffer,
        AlgebraFault::NamesMeet => Cause::NamesMeet,
        AlgebraFault::InnerNamesMeet => Cause::InnerNamesMeet,
        AlgebraFault::WidthsDiffer => Cause::WidthsDiffer,
        AlgebraFault::HasInnerNames => Cause::HasInnerNames,
        AlgebraFault::SupportMeets | AlgebraFault::NoSuchName => Cause::Unexpected,
        AlgebraFault::OutOfMemory => return Stop::OutOfMemory,
    };
    Stop::refuse(cause, at)
}
