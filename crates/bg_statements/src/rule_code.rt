//! Rules as their statements have them, each expression as its code.
ghost use Rattle.std.specs.Prelude.{◌≡◌, min};
ghost use Rattle.bg_code.specs.Code as code;
ghost use Rattle.bg_statements.specs.Calls.{ReadsAs, Adds, condition_code, condition_codes, rule_code, tail_code};
ghost use Rattle.bg_statements.specs.Rules as definition;
ghost use Rattle.bg_terms.specs.Trees.{e_read};
ghost use Rattle.bg_values.specs.Operands.{GivesList};
ghost use Rattle.bg_values.specs.Outcome.{Gives, Goes};

use bg_base::Map;
use bg_code::{Operation, Visible, code_of};
use bg_lists::Rows;
use bg_rules::Side;
use bg_trees::expressions::SynE;
use bg_trees::names::SynNumber;
use bg_trees::statements::{
    SynCond, SynEta, SynEtaTail, SynIfTail, SynMoreNumItem, SynNot, SynNumbers, SynReact, SynSide,
    SynTail, SynTest, SynTestsItem,
};
use bg_values::{Refusal, Scope, Stop, number_at, number_token};
use std::alloc::Global;

/// A condition of a rule: whether its pattern has to occur, on which side, the token of its `in`, and the code of its
/// pattern.
#[derive(Debug, Drop)]
pub struct ConditionCode {
    pub positive: bool,
    pub side: Side,
    pub at: u32,
    pub pattern: Rows<Operation>,
}

/// A rule: the token of its name, the code of its sides, its map where it has one, and its conditions.
#[derive(Debug, Drop)]
pub struct RuleCode {
    pub at: u32,
    pub redex: Rows<Operation>,
    pub reactum: Rows<Operation>,
    pub map: Option<Map>,
    pub conditions: Rows<ConditionCode>,
}

/// The code of a rule. Refuses the first name that cannot stand, in the order of the text. Linear in the tree.
pub(crate) fn rule_of(alloc: Global, visible: &Visible, tree: &SynReact) -> Result<RuleCode, Stop>
    ensures { ReadsAs rule_code result (definition.rule_read visible.now tree.now) }
{
    let redex = expression_of(alloc, visible, &tree.part4)?;
    let reactum = expression_of(alloc, visible, &tree.part6)?;
    let (map, conditions) = tail_of(alloc, visible, &tree.part7)?;
    Ok(RuleCode {
        at: tree.part1,
        redex,
        reactum,
        map,
        conditions,
    })
}

/// The code of an expression.
fn expression_of(alloc: Global, visible: &Visible, tree: &SynE) -> Result<Rows<Operation>, Stop>
    ensures { ReadsAs code.code_of result ((e_read tree.now).1 visible.now) }
{
    let operations = code_of(alloc, visible, tree)?;
    let rows = Rows::try_from_vec(operations)?;
    Ok(rows)
}

/// The map and the conditions.
fn tail_of(
    alloc: Global,
    visible: &Visible,
    tree: &SynTail,
) -> Result<(Option<Map>, Rows<ConditionCode>), Stop>
    ensures { ReadsAs tail_code result (definition.tail_read visible.now tree.now) }
{
    match tree {
        SynTail::Way1(map, rest) => {
            let map = map_of(alloc, visible, map)?;
            let conditions = later_conditions(alloc, visible, rest)?;
            Ok((map, conditions))
        }
        SynTail::Way2(conditions, rest) => {
            let conditions = conditions_of(alloc, visible, conditions)?;
            let map = later_map(alloc, visible, rest)?;
            Ok((map, conditions))
        }
        SynTail::Way3 => Ok((None, Rows::from_vec(Vec::new(alloc)))),
    }
}

/// The entries of a map.
fn map_of(alloc: Global, visible: &Visible, tree: &SynEta) -> Result<Option<Map>, Stop>
    ensures { Gives result (definition.map_read visible.now.scope tree.now) }
{
    let entries = entries_of(alloc, &visible.scope, &tree.part3)?;
    let map = Rows::try_from_vec(entries)?;
    Ok(Some(map))
}

/// The map behind the conditions, where there is one.
fn later_map(alloc: Global, visible: &Visible, tree: &SynEtaTail) -> Result<Option<Map>, Stop>
    ensures { Gives result (definition.later_map visible.now.scope tree.now) }
{
    match tree {
        SynEtaTail::Way1(map) => map_of(alloc, visible, map),
        SynEtaTail::Way2 => Ok(None),
    }
}

fn entries_of(alloc: Global, text: &Scope, tree: &SynNumbers) -> Result<Vec<u32>, Stop>
    ensures { GivesList result (definition.entries_read text.now tree.now) }
{
    match tree {
        SynNumbers::Way1(first, more) => listed_entries(alloc, text, first, more.as_slice()),
        SynNumbers::Way2 => Ok(Vec::new(alloc)),
    }
}

/// The first entry and those behind it.
fn listed_entries(
    alloc: Global,
    text: &Scope,
    first: &SynNumber,
    more: &[SynMoreNumItem],
) -> Result<Vec<u32>, Stop>
    ensures { GivesList result (definition.listed_entries text.now first.now more.now) }
{
    let mut entries = Vec::new(alloc);
    add_entry(text, first, &mut entries)?;
    add_entries(text, more, &mut entries)?;
    Ok(entries)
}

fn add_entries(text: &Scope, items: &[SynMoreNumItem], entries: &mut Vec<u32>) -> Result<(), Stop>
    ensures { Goes result entries.new.items (definition.with_entries text.now items.now entries.old.items) }
{
    for item in items {
        add_entry(text, &item.part2, entries)?;
    }
    Ok(())
}

fn add_entry(text: &Scope, tree: &SynNumber, entries: &mut Vec<u32>) -> Result<(), Stop>
    ensures { Goes result entries.new.items (definition.with_entry text.now tree.now entries.old.items) }
{
    let entry = entry_at(text, tree)?;
    entries.push(entry)?;
    Ok(())
}

/// An entry of a map. One that 32 bits do not number is no site of any bigraph, and all those are alike.
fn entry_at(text: &Scope, tree: &SynNumber) -> Result<u32, Refusal>
    ensures { result ≡ definition.map_entry_at text.now tree.now }
{
    let number = number_at(text, number_token(tree))?;
    Ok(cut(number.unsigned_abs()))
}

/// The number, or the largest of 32 bits where it is above that.
fn cut(number: u64) -> u32
    ensures { result ≡ min number 4294967295 }
{
    if number < 4_294_967_295 {
        number as u32
    } else {
        4_294_967_295
    }
}

/// The conditions behind the map, where there are any.
fn later_conditions(
    alloc: Global,
    visible: &Visible,
    tree: &SynIfTail,
) -> Result<Rows<ConditionCode>, Stop>
    ensures { ReadsAs condition_codes result (definition.later_conditions visible.now tree.now) }
{
    match tree {
        SynIfTail::Way1(conditions) => conditions_of(alloc, visible, conditions),
        SynIfTail::Way2 => Ok(Rows::from_vec(Vec::new(alloc))),
    }
}

fn conditions_of(
    alloc: Global,
    visible: &Visible,
    tree: &SynCond,
) -> Result<Rows<ConditionCode>, Stop>
    ensures { ReadsAs condition_codes result (definition.conditions_read visible.now tree.now) }
{
    let mut conditions = Vec::new(alloc);
    add_condition(alloc, visible, &tree.part2, &mut conditions)?;
    add_conditions(alloc, visible, tree.part3.as_slice(), &mut conditions)?;
    let rows = Rows::try_from_vec(conditions)?;
    Ok(rows)
}

fn add_conditions(
    alloc: Global,
    visible: &Visible,
    items: &[SynTestsItem],
    conditions: &mut Vec<ConditionCode>,
) -> Result<(), Stop>
    ensures { Adds result conditions.old.items conditions.new.items (definition.with_conditions visible.now items.now) }
{
    for item in items {
        add_condition(alloc, visible, &item.part2, conditions)?;
    }
    Ok(())
}

fn add_condition(
    alloc: Global,
    visible: &Visible,
    tree: &SynTest,
    conditions: &mut Vec<ConditionCode>,
) -> Result<(), Stop>
    ensures { Adds result conditions.old.items conditions.new.items (definition.with_condition visible.now tree.now) }
{
    let condition = condition_of(alloc, visible, tree)?;
    conditions.push(condition)?;
    Ok(())
}

fn condition_of(alloc: Global, visible: &Visible, tree: &SynTest) -> Result<ConditionCode, Stop>
    ensures { ReadsAs condition_code result (definition.condition_read visible.now tree.now) }
{
    let pattern = expression_of(alloc, visible, &tree.part2)?;
    Ok(ConditionCode {
        positive: is_positive(&tree.part1),
        side: side_of(&tree.part4),
        at: tree.part3,
        pattern,
    })
}

/// Whether the pattern has to occur.
fn is_positive(tree: &SynNot) -> bool
    ensures { result ≡ definition.is_positive tree.now }
{
    match tree {
        SynNot::Way1(_) => false,
        SynNot::Way2 => true,
    }
}

fn side_of(tree: &SynSide) -> Side
    ensures { result ≡ definition.side_of tree.now }
{
    match tree {
        SynSide::Way1(_) => Side::Ctx,
        SynSide::Way2(_) => Side::Param,
    }
}
