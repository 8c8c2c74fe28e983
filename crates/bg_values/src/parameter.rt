//! The values of a parameter.
ghost use Rattle.std.specs.Prelude.{◌≡◌, ◌∷◌, MatchResult};
ghost use Rattle.bg_values.specs.Operands as operands;
ghost use Rattle.bg_values.specs.Outcome.{Gives};
ghost use Rattle.bg_values.specs.Parameters as definition;

use crate::formula::whole_of;
use crate::names::NameTable;
use crate::operands::{Operand, numbers_of, operand_of, operands_of};
use crate::reading::text_at;
use crate::refusal::{Cause, LimitWord, Refusal, Stop};
use crate::scope::Scope;
use crate::values::{Bounds, ParameterValues, steps_of};
use bg_base::Value;
use bg_base::limits::MOST_VALUES;
use bg_trees::arithmetic::{SynMoreXItem, SynX};
use bg_trees::statements::{SynIntSet, SynMoreTextItem, SynParam, SynTextSet};
use std::alloc::Global;

/// The values of a parameter, in order, repeats kept: those of a list, or the numbers of a range, or one value. Refuses
/// with the first cause: a name, since none is visible in them, whatever names `scope` has; then item by item of a list
/// what arithmetic refuses or a text for a number, and of a range the values of its three parts, a text for a number, a
/// step below 1 or a range that begins behind its end; last more than 4,096 values. Linear in the tree: the numbers of
/// a range are counted, and none is made.
pub fn parameter_values(
    alloc: Global,
    scope: &Scope,
    tree: &SynParam,
) -> Result<ParameterValues, Stop>
    ensures { Gives result (definition.parameter_values scope.now tree.now) }
{
    let nothing: NameTable<()> = NameTable::new(alloc);
    let closed = Scope {
        bytes: scope.bytes,
        tokens: scope.tokens,
        names: &nothing,
    };
    values_read(alloc, &closed, tree)
}

/// The values that a parameter says in the scope.
fn values_read(alloc: Global, scope: &Scope, tree: &SynParam) -> Result<ParameterValues, Stop>
    ensures { Gives result (definition.values_read scope.now tree.now) }
{
    match tree {
        SynParam::Way1(_, name, _, set, _) => int_values(alloc, scope, *name, set),
        SynParam::Way2(_, name, _, set, _) => text_values(alloc, scope, *name, set),
    }
}

/// The token of the name of a parameter.
pub fn parameter_name(tree: &SynParam) -> u32
    ensures { result ≡ definition.name_token tree.now }
{
    match tree {
        SynParam::Way1(_, name, _, _, _) => *name,
        SynParam::Way2(_, name, _, _, _) => *name,
    }
}

fn int_values(
    alloc: Global,
    scope: &Scope,
    name: u32,
    set: &SynIntSet,
) -> Result<ParameterValues, Stop>
    ensures { Gives result (definition.int_values scope.now name set.now) }
{
    match set {
        SynIntSet::Way1(_, first, more, _) => listed(alloc, scope, name, first, more.as_slice()),
        SynIntSet::Way2(bracket, from, _, step, _, to, _) => ranged(
            alloc, scope, name, *bracket, from, step, to,
        ),
        SynIntSet::Way3(only) => listed(alloc, scope, name, only, &[]),
    }
}

/// The numbers of a list.
fn listed(
    alloc: Global,
    scope: &Scope,
    name: u32,
    first: &SynX,
    more: &[SynMoreXItem],
) -> Result<ParameterValues, Stop>
    ensures { Gives result (definition.listed scope.now name first.now more.now) }
{
    let operands = operands_of(alloc, scope, first, more)?;
    let values = numbers_of(alloc, operands.as_slice(), &[])?;
    let values = few(name, values)?;
    let kept = ParameterValues::listed(alloc, values)?;
    Ok(kept)
}

/// These values, where there are not too many.
fn few(name: u32, values: Vec<Value>) -> Result<Vec<Value>, Refusal>
    ensures { let wanted = definition.few name values.items in MatchResult result (λ kept. wanted ≡ Ok kept.items) (λ refusal. wanted ≡ Err refusal) }
{
    if values.len() > MOST_VALUES {
        Err(Refusal::new(Cause::TooLarge(LimitWord::Values), name))
    } else {
        Ok(values)
    }
}

/// The numbers of a range.
fn ranged(
    alloc: Global,
    scope: &Scope,
    name: u32,
    bracket: u32,
    from: &SynX,
    step: &SynX,
    to: &SynX,
) -> Result<ParameterValues, Stop>
    ensures { Gives result (definition.range_read scope.now name bracket from.now step.now to.now) }
{
    let from = operand_of(alloc, scope, from)?;
    let step = operand_of(alloc, scope, step)?;
    let to = operand_of(alloc, scope, to)?;
    evaluated_range(alloc, name, bracket, &from, &step, &to)
}

fn evaluated_range(
    alloc: Global,
    name: u32,
    bracket: u32,
    from: &Operand,
    step: &Operand,
    to: &Operand,
) -> Result<ParameterValues, Stop>
    ensures { (f g h : operands.Operand) → operands.shown from.now ≡ operands.coded f → operands.shown step.now ≡ operands.coded g
        → operands.shown to.now ≡ operands.coded h → Gives result (definition.evaluated_range name bracket f g h) }
{
    let first = from.formula.evaluate(alloc, &[])?;
    let second = step.formula.evaluate(alloc, &[])?;
    let last = to.formula.evaluate(alloc, &[])?;
    let a = whole_of(from.first, &first)?;
    let values = numbered_range(name, bracket, a, step.first, &second, to.first, &last)?;
    Ok(values)
}

/// The numbers of a range from `a` on, of which the step and the end are to be numbers; `step_token` and `end_token`
/// are the first tokens of these two.
fn numbered_range(
    name: u32,
    bracket: u32,
    a: i64,
    step_token: u32,
    step: &Value,
    end_token: u32,
    end: &Value,
) -> Result<ParameterValues, Refusal>
    ensures { result ≡ definition.numbered_range name bracket a step_token step.now end_token end.now }
{
    let step = whole_of(step_token, step)?;
    let end = whole_of(end_token, end)?;
    let bounds = Bounds {
        first: a,
        step,
        end,
    };
    let values = range(name, bracket, bounds)?;
    Ok(values)
}

/// The numbers of a range: its first, the one a step further and so on up to its end. They are counted, and none is
/// made.
fn range(name: u32, bracket: u32, bounds: Bounds) -> Result<ParameterValues, Refusal>
    ensures { result ≡ definition.range name bracket bounds.first bounds.step bounds.end }
{
    if is_empty(bounds.first, bounds.step, bounds.end) {
        return Err(Refusal::new(Cause::EmptyRange, bracket));
    }
    if steps_of(&bounds) >= MOST_VALUES as u128 {
        return Err(Refusal::new(Cause::TooLarge(LimitWord::Values), name));
    }
    Ok(ParameterValues::range(bounds))
}

/// Whether the step is below 1, or the range begins behind its end.
fn is_empty(a: i64, s: i64, b: i64) -> bool
    ensures { result ≡ definition.is_empty a s b }
{
    s < 1 || b < a
}

/// The texts of a list, or one text.
fn text_values(
    alloc: Global,
    scope: &Scope,
    name: u32,
    set: &SynTextSet,
) -> Result<ParameterValues, Stop>
    ensures { Gives result (definition.text_values scope.now name set.now) }
{
    let texts = texts_of(alloc, scope, name, set)?;
    let kept = ParameterValues::listed(alloc, texts)?;
    Ok(kept)
}

fn texts_of(alloc: Global, scope: &Scope, name: u32, set: &SynTextSet) -> Result<Vec<Value>, Stop>
    ensures { operands.GivesList result (definition.text_values scope.now name set.now) }
{
    match set {
        SynTextSet::Way1(_, first, more, _) => few_texts(
            alloc,
            scope,
            name,
            *first,
            more.as_slice(),
        ),
        SynTextSet::Way2(only) => texts_at(alloc, scope, *only, &[]),
    }
}

fn few_texts(
    alloc: Global,
    scope: &Scope,
    name: u32,
    first: u32,
    more: &[SynMoreTextItem],
) -> Result<Vec<Value>, Stop>
    ensures { operands.GivesList result (definition.few_texts scope.now name first (definition.tokens_of more.now)) }
{
    let texts = texts_at(alloc, scope, first, more)?;
    let texts = few(name, texts)?;
    Ok(texts)
}

/// The texts of the tokens, in order.
fn texts_at(
    alloc: Global,
    scope: &Scope,
    first: u32,
    more: &[SynMoreTextItem],
) -> Result<Vec<Value>, Stop>
    ensures { operands.GivesList result (definition.texts_at scope.now (first ∷ definition.tokens_of more.now)) }
{
    let mut texts = Vec::new(alloc);
    texts.push(Value::Words(text_at(alloc, scope, first)?))?;
    for item in more {
        texts.push(Value::Words(text_at(alloc, scope, item.part2)?))?;
    }
    Ok(texts)
}
