//! Several formulas in a row: the arguments of a control or a reference, the values of a parameter.
ghost use Rattle.std.specs.Prelude.{◌≡◌, ◌∷◌, [], List, map};
ghost use Rattle.bg_values.specs.Operands as definition;
ghost use Rattle.bg_values.specs.Outcome.{Gives};

use crate::formula::{Formula, whole_of};
use crate::reading::{first_of_x, formula_of};
use crate::refusal::Stop;
use crate::scope::Scope;
use bg_base::Value;
use bg_trees::arithmetic::{SynMoreXItem, SynX};
use std::alloc::Global;

/// A formula, and its first token.
#[derive(Debug, Drop)]
pub struct Operand {
    pub first: u32,
    pub formula: Formula,
}

/// The formulas of a list of trees, in order. Refuses the first name that is not visible. Linear in the trees.
pub fn operands_of(
    alloc: Global,
    scope: &Scope,
    first: &SynX,
    more: &[SynMoreXItem],
) -> Result<Vec<Operand>, Stop>
    ensures { definition.ReadsAll result (definition.operands_read scope.now (definition.trees first.now more.now)) }
{
    let mut operands = Vec::new(alloc);
    add_operand(alloc, scope, first, &mut operands)?;
    add_operands(alloc, scope, more, &mut operands)?;
    Ok(operands)
}

fn add_operands(
    alloc: Global,
    scope: &Scope,
    items: &[SynMoreXItem],
    operands: &mut Vec<Operand>,
) -> Result<(), Stop>
    ensures { definition.Adds result operands.old.items operands.new.items
        (definition.operands_read scope.now (definition.trees_of items.now)) }
{
    for item in items {
        add_operand(alloc, scope, &item.part2, operands)?;
    }
    Ok(())
}

fn add_operand(
    alloc: Global,
    scope: &Scope,
    tree: &SynX,
    operands: &mut Vec<Operand>,
) -> Result<(), Stop>
    ensures { definition.Adds result operands.old.items operands.new.items (definition.operands_read scope.now (tree.now ∷ [])) }
{
    let operand = operand_of(alloc, scope, tree)?;
    operands.push(operand)?;
    Ok(())
}

/// The formula of a tree, with its first token, or the first name that is not visible. Linear in the tree.
pub(crate) fn operand_of(alloc: Global, scope: &Scope, tree: &SynX) -> Result<Operand, Stop>
    ensures { definition.ReadsOne result (definition.operand_read scope.now tree.now) }
{
    let formula = formula_of(alloc, scope, tree)?;
    Ok(Operand {
        first: first_of_x(tree),
        formula,
    })
}

/// What the formulas come to, in order, where the visible names have these values. Linear in their steps.
pub fn values_of(alloc: Global, operands: &[Operand], env: &[Value]) -> Result<Vec<Value>, Stop>
    ensures steps { definition.GivesList result (definition.outcomes env.now (map definition.shown operands.now)) }
    ensures values { (fs : List definition.Operand) → definition.AreCodesOf fs operands.now → definition.GivesList result (definition.values env.now fs) }
{
    let mut values = Vec::new(alloc);
    let mut others = operands;
    while let Some((operand, rest)) = others.split_first() {
        values.push(operand.formula.evaluate(alloc, env)?)?;
        others = rest;
    }
    Ok(values)
}

/// The numbers that the formulas come to, in order. Refuses the first that comes to a text. Linear in their steps.
pub(crate) fn numbers_of(
    alloc: Global,
    operands: &[Operand],
    env: &[Value],
) -> Result<Vec<Value>, Stop>
    ensures { (fs : List definition.Operand) → definition.AreCodesOf fs operands.now → definition.GivesList result (definition.numbers env.now fs) }
{
    let mut numbers = Vec::new(alloc);
    let mut others = operands;
    while let Some((operand, rest)) = others.split_first() {
        numbers.push(evaluate_number(alloc, operand, env)?)?;
        others = rest;
    }
    Ok(numbers)
}

/// The number that the formula comes to.
fn evaluate_number(alloc: Global, operand: &Operand, env: &[Value]) -> Result<Value, Stop>
    ensures { (f : definition.Operand) → definition.shown operand.now ≡ definition.coded f → Gives result (definition.number env.now f) }
{
    let value = operand.formula.evaluate(alloc, env)?;
    let number = whole_of(operand.first, &value)?;
    Ok(Value::Int(number))
}
