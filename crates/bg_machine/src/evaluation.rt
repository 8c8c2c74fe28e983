//! The value of an expression.
ghost use Rattle.std.specs.Prelude.{◌≡◌, IfOk, List, map};
ghost use Rattle.bg_base.specs.Bigraph.{IsValid};
ghost use Rattle.bg_code.specs.Code.{code_of};
ghost use Rattle.bg_machine.specs.Calls as definition;
ghost use Rattle.bg_terms.specs.Expansion.{expand, meanings_of};
ghost use Rattle.bg_terms.specs.Read.{shapes_of};
ghost use Rattle.bg_terms.specs.Expressions.{Expression};
ghost use Rattle.bg_values.specs.Outcome.{Gives};

use crate::Met;
use crate::machine::Machine;
use crate::running::run;
use bg_base::{Big, Value};
use bg_code::Operation;
use bg_lists::Rows;
use bg_terms::ControlEntry;
use bg_values::{NameTable, Stop};
use std::alloc::Global;

/// The bigraph that an expression comes to, by its code, and what was then met: where these controls are visible, the
/// definitions before it stand as their codes, the formals have these values, and `met` was met so far. Its nodes and
/// the edges of its closures are numbered from 0. Or its first refusal, as `value` of `bg_terms` has it. No arity is
/// above 16.
///
/// Costs time and memory in proportion to the expanded expression, up to a logarithm; and for each nesting and closure,
/// and each `|` whose left side has not one region, time in proportion to what is inside.
pub fn evaluate(
    alloc: Global,
    controls: &NameTable<ControlEntry>,
    definitions: &[Rows<Operation>],
    env: &[Value],
    code: &[Operation],
    met: Met,
) -> Result<(Big, Met), Stop>
    requires small { definition.AreSmall controls.now }
    ensures value { (es : List Expression) (e : Expression) → definitions.now ≡ map code_of es → code.now ≡ code_of e
        → Gives result (definition.valued (definition.evaluated met (expand (shapes_of controls.now) (meanings_of (shapes_of controls.now) es) env.now e))) }
    ensures valid { IfOk result (λ found. IsValid found.0) }
{
    let mut machine = Machine::new(alloc, met);
    run(alloc, controls, definitions, env, code, &mut machine)?;
    machine.finish(alloc)
}
