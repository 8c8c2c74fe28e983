//! The arguments of a control or of a reference.
ghost use Rattle.std.specs.Prelude.{◌≡◌, length};
ghost use Rattle.bg_code.specs.Lowering as lowering;
ghost use Rattle.bg_terms.specs.Trees as trees;
ghost use Rattle.bg_values.specs.Operands.{operands_read};

use bg_base::Value;
use bg_trees::expressions::SynArgs;
use bg_values::{Operand, Scope, Stop, operands_of, values_of};
use std::alloc::Global;
use std::marker::Model;

/// The arguments of a control or of a reference, in order. A contract sees the first token and the steps of each.
#[derive(Debug, Drop)]
pub struct Arguments {
    operands: Vec<Operand>,
}

impl Model for Arguments {
    ghost use Rattle.std.specs.Prelude.{ℕ, List, map};
    ghost use Rattle.bg_values.specs.declared.formula.FormulaStep.{FormulaStep};
    ghost use Rattle.bg_values.specs.Operands.{shown};

    ghost Value = { List (ℕ × List FormulaStep) };

    ghost view = { λ arguments. map shown arguments.operands.items };
}

impl Arguments {
    ghost use Rattle.bg_values.specs.Operands as operands;

    /// What the arguments come to, where the visible names have these values. Linear in their steps.
    pub fn values(&self, alloc: Global, env: &[Value]) -> Result<Vec<Value>, Stop>
        ensures { operands.GivesList result (operands.outcomes env.now self.now) }
    {
        let values = values_of(alloc, self.operands.as_slice(), env)?;
        Ok(values)
    }
}

/// The formulas of arguments. Refuses the first name that is not visible. Linear in the trees.
pub fn arguments_of(alloc: Global, scope: &Scope, tree: &SynArgs) -> Result<Arguments, Stop>
    ensures { lowering.ReadsArguments result (operands_read scope.now (trees.arguments tree.now)) }
{
    let operands = match tree {
        SynArgs::Way1(_, first, more, _) => operands_of(alloc, scope, first, more.as_slice())?,
        SynArgs::Way2 => Vec::new(alloc),
    };
    Ok(Arguments { operands })
}

/// How many arguments there are. Takes constant time.
pub fn argument_count(tree: &SynArgs) -> usize
    ensures { result ≡ length (trees.arguments tree.now) }
{
    match tree {
        SynArgs::Way1(_, _, more, _) => 1 + more.len(),
        SynArgs::Way2 => 0,
    }
}
