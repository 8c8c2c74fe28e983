//! Formulas, and the machine that finds what they come to.
ghost use Rattle.std.specs.Prelude.{◌≡◌, slice_get};
ghost use Rattle.std.specs.Option.{option_copied};
ghost use Rattle.bg_values.specs.Arithmetic as definition;
ghost use Rattle.bg_values.specs.Machine as machine;
ghost use Rattle.bg_values.specs.Outcome.{Gives, Goes};

use crate::arithmetic;
use crate::refusal::{Cause, Refusal, Stop};
use crate::stack::Stack;
use bg_base::{Text, Value};
use bg_lists::Duplicate;
use std::alloc::Global;

/// An operator of two whole numbers.
#[derive(Clone, Copy, Debug, PartialEq, Eq)]
pub enum Operator {
    Add,
    Subtract,
    Multiply,
    Divide,
}

/// A step of a formula, written with the operands before the operator. An operand is named by its first token.
#[derive(Debug, Drop)]
pub enum FormulaStep {
    /// Puts a number.
    Whole(i64),
    /// Puts a text.
    Words(Text),
    /// Puts the value of the visible name with that number.
    Name {
        at: u32,
        number: u32,
    },
    /// Turns the sign of the number on top.
    Negate {
        at: u32,
        operand: u32,
    },
    /// Takes two numbers, and puts what the operator gives.
    Apply {
        operator: Operator,
        at: u32,
        left: u32,
        right: u32,
    },
}

/// A formula in which the names are numbered.
#[derive(Debug, Drop)]
pub struct Formula {
    pub(crate) steps: Vec<FormulaStep>,
}

impl Formula {
    ghost use Rattle.bg_values.specs.Outcome.{Gives};
    ghost use Rattle.bg_values.specs.Arithmetic as definition;
    ghost use Rattle.bg_values.specs.Machine as machine;

    /// What the formula comes to, where the visible names have these values. Linear in its steps.
    pub fn evaluate(&self, alloc: Global, env: &[Value]) -> Result<Value, Stop>
        ensures steps { Gives result (machine.outcome env.now self.now.steps.items) }
        ensures value { (formula : definition.Formula) → machine.IsCodeOf formula self.now → Gives result (definition.value env.now formula) }
    {
        let mut stack = Stack::new(alloc);
        run(alloc, self.steps.as_slice(), env, &mut stack)?;
        let value = top(&mut stack)?;
        Ok(value)
    }
}

/// Takes the value on top.
fn top(stack: &mut Stack<Value>) -> Result<Value, Refusal>
    ensures value { result ≡ machine.top stack.old }
    ensures left { stack.new ≡ machine.below stack.old }
{
    match stack.pop() {
        Some(value) => Ok(value),
        None => Err(Refusal::new(Cause::Unexpected, 0)),
    }
}

/// Takes the steps in order.
fn run(
    alloc: Global,
    steps: &[FormulaStep],
    env: &[Value],
    stack: &mut Stack<Value>,
) -> Result<(), Stop>
    ensures { Goes result stack.new (machine.run env.now steps.now stack.old) }
{
    for step in steps {
        take_formula_step(alloc, step, env, stack)?;
    }
    Ok(())
}

/// Takes one step.
fn take_formula_step(
    alloc: Global,
    step: &FormulaStep,
    env: &[Value],
    stack: &mut Stack<Value>,
) -> Result<(), Stop>
    ensures { Goes result stack.new (machine.step env.now step.now stack.old) }
{
    match step {
        FormulaStep::Whole(number) => put(stack, Value::Int(*number)),
        FormulaStep::Words(text) => put_text(alloc, stack, text),
        FormulaStep::Name { at, number } => put_name(alloc, stack, env, *at, *number),
        FormulaStep::Negate { at, operand } => negate(stack, *at, *operand),
        FormulaStep::Apply {
            operator,
            at,
            left,
            right,
        } => apply(stack, *operator, *at, *left, *right),
    }
}

fn put(stack: &mut Stack<Value>, value: Value) -> Result<(), Stop>
    ensures { Goes result stack.new (machine.put value stack.old) }
{
    stack.push(value)?;
    Ok(())
}

fn put_text(alloc: Global, stack: &mut Stack<Value>, text: &Text) -> Result<(), Stop>
    ensures { Goes result stack.new (machine.put (Value.Words text.now) stack.old) }
{
    put(stack, Value::Words(text.copy(alloc)?))
}

fn put_name(
    alloc: Global,
    stack: &mut Stack<Value>,
    env: &[Value],
    at: u32,
    number: u32,
) -> Result<(), Stop>
    ensures { Goes result stack.new (machine.put_name env.now at number stack.old) }
{
    let value = look_up(alloc, env, at, number)?;
    put(stack, value)
}

/// A copy of the value with that number.
fn look_up(alloc: Global, env: &[Value], at: u32, number: u32) -> Result<Value, Stop>
    ensures { Gives result (machine.named env.now at number) }
{
    match find(env, number) {
        Some(value) => Ok(value.copy(alloc)?),
        None => Err(Stop::refuse(Cause::UnknownName, at)),
    }
}

fn find(env: &[Value], number: u32) -> Option<&Value>
    ensures { option_copied result ≡ slice_get env.now number }
{
    env.get(number as usize)
}

fn negate(stack: &mut Stack<Value>, at: u32, operand: u32) -> Result<(), Stop>
    ensures { Goes result stack.new (machine.negate at operand stack.old) }
{
    let value = top(stack)?;
    let number = arithmetic::negate(at, whole_of(operand, &value)?)?;
    put(stack, Value::Int(number))
}

fn apply(
    stack: &mut Stack<Value>,
    operator: Operator,
    at: u32,
    left: u32,
    right: u32,
) -> Result<(), Stop>
    ensures { Goes result stack.new (machine.apply operator at left right stack.old) }
{
    let second = top(stack)?;
    let first = top(stack)?;
    let x = whole_of(left, &first)?;
    let y = whole_of(right, &second)?;
    let number = arithmetic::apply(operator, at, x, y)?;
    put(stack, Value::Int(number))
}

/// The whole number that the value is, the first token of whose formula stands there.
pub(crate) fn whole_of(token: u32, value: &Value) -> Result<i64, Refusal>
    ensures { result ≡ definition.whole_of token value.now }
{
    match value {
        Value::Int(number) => Ok(*number),
        Value::Words(_) => Err(Refusal::new(Cause::WrongKind, token)),
    }
}
