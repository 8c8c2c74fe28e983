//! From a tree of arithmetic to the steps of its formula.
ghost use Rattle.std.specs.Prelude.{◌≡◌, map};
ghost use Rattle.bg_values.specs.Outcome.{Gives, Goes};
ghost use Rattle.bg_values.specs.Reading as definition;
ghost use Rattle.bg_values.specs.Lowering.{lowered, Extends, GivesSteps};

use crate::formula::{Formula, FormulaStep, Operator};
use crate::number::number_in;
use crate::refusal::{Cause, Refusal, Stop};
use crate::scope::Scope;
use bg_base::{Text, is_text};
use bg_trees::arithmetic::{SynT, SynT1Item, SynU, SynX, SynX1Item};
use bg_trees::names::SynNumber;
use std::alloc::Global;

/// The formula that a tree is, its names numbered as they stand among the visible ones. Refuses the first name that is
/// not visible. Linear in the tree.
pub fn formula_of(alloc: Global, scope: &Scope, tree: &SynX) -> Result<Formula, Stop>
    ensures { GivesSteps result ((definition.x_read tree.now).1 scope.now) }
{
    let mut steps = Vec::new(alloc);
    lower_x(alloc, scope, tree, &mut steps)?;
    Ok(Formula { steps })
}

/// The number that the token spells; `Unexpected` (31) where it spells none. Linear in the token.
pub fn number_at(scope: &Scope, token: u32) -> Result<i64, Refusal>
    ensures { result ≡ definition.number_at scope.now token }
{
    match number_in(scope.spelling(token)) {
        Some(number) => Ok(number),
        None => Err(Refusal::new(Cause::Unexpected, token)),
    }
}

/// The token of the number.
pub fn number_token(tree: &SynNumber) -> u32
    ensures { result ≡ definition.number_token tree.now }
{
    match tree {
        SynNumber::Way1(token) => *token,
        SynNumber::Way2(token) => *token,
        SynNumber::Way3(token) => *token,
    }
}

/// The text that the token spells, between its quotes; `Unexpected` (31) where that is no text. Linear in the token.
pub(crate) fn text_at(alloc: Global, scope: &Scope, token: u32) -> Result<Text, Stop>
    ensures { Gives result (definition.text_at scope.now token) }
{
    let inside = between(scope.spelling(token));
    if is_text(inside) {
        Ok(Text::from_bytes(alloc, inside)?)
    } else {
        Err(Stop::refuse(Cause::Unexpected, token))
    }
}

/// What stands between the first byte and the last.
fn between(bytes: &[u8]) -> &[u8]
    ensures { result.now ≡ definition.between bytes.now }
{
    match bytes {
        [_, middle @ .., _] => middle,
        _ => &[],
    }
}

/// The number of the visible name that the token spells.
fn name_at(scope: &Scope, token: u32) -> Result<u32, Refusal>
    ensures { result ≡ definition.name_at scope.now token }
{
    match scope.names.find(scope.spelling(token)) {
        Some(number) => Ok(number),
        None => Err(Refusal::new(Cause::UnknownName, token)),
    }
}

/// The first token of the tree.
pub(crate) fn first_of_x(tree: &SynX) -> u32
    ensures { result ≡ (definition.x_read tree.now).0 }
{
    first_of_t(&tree.part1)
}

/// The first token of the tree.
fn first_of_t(tree: &SynT) -> u32
    ensures { result ≡ (definition.t_read tree.now).0 }
{
    first_of_u(&tree.part1)
}

/// The first token of the tree.
fn first_of_u(tree: &SynU) -> u32
    ensures { result ≡ (definition.u_read tree.now).0 }
{
    match tree {
        SynU::Way1(number) => number_token(number),
        SynU::Way2(token) => *token,
        SynU::Way3(token) => *token,
        SynU::Way4(at, _) => *at,
        SynU::Way5(open, _, _) => *open,
    }
}

#[cycle(lowering)]
fn lower_x(
    alloc: Global,
    scope: &Scope,
    tree: &SynX,
    steps: &mut Vec<FormulaStep>,
) -> Result<(), Stop>
    ensures { Goes result steps.new.items (lowered steps.old.items ((definition.x_read tree.now).1 scope.now)) }
{
    lower_t(alloc, scope, &tree.part1, steps)?;
    lower_x_items(
        alloc,
        scope,
        first_of_t(&tree.part1),
        tree.part2.as_slice(),
        steps,
    )
}

#[cycle(lowering)]
fn lower_x_items(
    alloc: Global,
    scope: &Scope,
    first: u32,
    items: &[SynX1Item],
    steps: &mut Vec<FormulaStep>,
) -> Result<(), Stop>
    ensures { Extends result steps.old.items steps.new.items (definition.items_read (map definition.x1_item_read items.now) scope.now first) }
{
    for item in items {
        lower_x_item(alloc, scope, first, item, steps)?;
    }
    Ok(())
}

#[cycle(lowering)]
fn lower_x_item(
    alloc: Global,
    scope: &Scope,
    first: u32,
    item: &SynX1Item,
    steps: &mut Vec<FormulaStep>,
) -> Result<(), Stop>
    ensures { Extends result steps.old.items steps.new.items (definition.x1_item_read item.now scope.now first) }
{
    match item {
        SynX1Item::Way1(at, right) => lower_term(
            alloc,
            scope,
            Operator::Add,
            *at,
            first,
            right,
            steps,
        ),
        SynX1Item::Way2(at, right) => lower_term(
            alloc,
            scope,
            Operator::Subtract,
            *at,
            first,
            right,
            steps,
        ),
    }
}

#[cycle(lowering)]
fn lower_term(
    alloc: Global,
    scope: &Scope,
    operator: Operator,
    at: u32,
    first: u32,
    right: &SynT,
    steps: &mut Vec<FormulaStep>,
) -> Result<(), Stop>
    ensures { Extends result steps.old.items steps.new.items (definition.operated operator at (definition.t_read right.now) scope.now first) }
{
    lower_t(alloc, scope, right, steps)?;
    steps.push(FormulaStep::Apply {
        operator,
        at,
        left: first,
        right: first_of_t(right),
    })?;
    Ok(())
}

#[cycle(lowering)]
fn lower_t(
    alloc: Global,
    scope: &Scope,
    tree: &SynT,
    steps: &mut Vec<FormulaStep>,
) -> Result<(), Stop>
    ensures { Goes result steps.new.items (lowered steps.old.items ((definition.t_read tree.now).1 scope.now)) }
{
    lower_u(alloc, scope, &tree.part1, steps)?;
    lower_t_items(
        alloc,
        scope,
        first_of_u(&tree.part1),
        tree.part2.as_slice(),
        steps,
    )
}

#[cycle(lowering)]
fn lower_t_items(
    alloc: Global,
    scope: &Scope,
    first: u32,
    items: &[SynT1Item],
    steps: &mut Vec<FormulaStep>,
) -> Result<(), Stop>
    ensures { Extends result steps.old.items steps.new.items (definition.items_read (map definition.t1_item_read items.now) scope.now first) }
{
    for item in items {
        lower_t_item(alloc, scope, first, item, steps)?;
    }
    Ok(())
}

#[cycle(lowering)]
fn lower_t_item(
    alloc: Global,
    scope: &Scope,
    first: u32,
    item: &SynT1Item,
    steps: &mut Vec<FormulaStep>,
) -> Result<(), Stop>
    ensures { Extends result steps.old.items steps.new.items (definition.t1_item_read item.now scope.now first) }
{
    match item {
        SynT1Item::Way1(at, right) => lower_factor(
            alloc,
            scope,
            Operator::Multiply,
            *at,
            first,
            right,
            steps,
        ),
        SynT1Item::Way2(at, right) => lower_factor(
            alloc,
            scope,
            Operator::Divide,
            *at,
            first,
            right,
            steps,
        ),
    }
}

#[cycle(lowering)]
fn lower_factor(
    alloc: Global,
    scope: &Scope,
    operator: Operator,
    at: u32,
    first: u32,
    right: &SynU,
    steps: &mut Vec<FormulaStep>,
) -> Result<(), Stop>
    ensures { Extends result steps.old.items steps.new.items (definition.operated operator at (definition.u_read right.now) scope.now first) }
{
    lower_u(alloc, scope, right, steps)?;
    steps.push(FormulaStep::Apply {
        operator,
        at,
        left: first,
        right: first_of_u(right),
    })?;
    Ok(())
}

#[cycle(lowering)]
fn lower_u(
    alloc: Global,
    scope: &Scope,
    tree: &SynU,
    steps: &mut Vec<FormulaStep>,
) -> Result<(), Stop>
    ensures { Goes result steps.new.items (lowered steps.old.items ((definition.u_read tree.now).1 scope.now)) }
{
    match tree {
        SynU::Way1(number) => lower_number(scope, number, steps),
        SynU::Way2(token) => lower_text(alloc, scope, *token, steps),
        SynU::Way3(token) => lower_name(scope, *token, steps),
        SynU::Way4(at, operand) => lower_negation(alloc, scope, *at, operand, steps),
        SynU::Way5(_, inside, _) => lower_x(alloc, scope, inside, steps),
    }
}

#[cycle(lowering)]
fn lower_negation(
    alloc: Global,
    scope: &Scope,
    at: u32,
    operand: &SynU,
    steps: &mut Vec<FormulaStep>,
) -> Result<(), Stop>
    ensures { Goes result steps.new.items (lowered steps.old.items (definition.negation_at at (definition.u_read operand.now) scope.now)) }
{
    lower_u(alloc, scope, operand, steps)?;
    steps.push(FormulaStep::Negate {
        at,
        operand: first_of_u(operand),
    })?;
    Ok(())
}

fn lower_number(scope: &Scope, number: &SynNumber, steps: &mut Vec<FormulaStep>) -> Result<(), Stop>
    ensures { Goes result steps.new.items (lowered steps.old.items (definition.whole_at scope.now (definition.number_token number.now))) }
{
    let value = number_at(scope, number_token(number))?;
    steps.push(FormulaStep::Whole(value))?;
    Ok(())
}

fn lower_text(
    alloc: Global,
    scope: &Scope,
    token: u32,
    steps: &mut Vec<FormulaStep>,
) -> Result<(), Stop>
    ensures { Goes result steps.new.items (lowered steps.old.items (definition.words_at scope.now token)) }
{
    let text = text_at(alloc, scope, token)?;
    steps.push(FormulaStep::Words(text))?;
    Ok(())
}

fn lower_name(scope: &Scope, token: u32, steps: &mut Vec<FormulaStep>) -> Result<(), Stop>
    ensures { Goes result steps.new.items (lowered steps.old.items (definition.named_at scope.now token)) }
{
    let number = name_at(scope, token)?;
    steps.push(FormulaStep::Name { at: token, number })?;
    Ok(())
}
