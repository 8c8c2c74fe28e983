//! What rules come to.
ghost use Rattle.std.specs.Prelude.{◌≡◌, IfOk};
ghost use Rattle.bg_statements.specs.InTurn.{in_turn};
ghost use Rattle.bg_statements.specs.RuleValues as definition;
ghost use Rattle.bg_values.specs.Outcome.{Gives, Goes};

use crate::rule_code::{ConditionCode, RuleCode};
use bg_base::{Big, Map, Signature, Value};
use bg_code::Operation;
use bg_lists::{Duplicate, Mem, Rows};
use bg_machine::{Met, evaluate, numbers_below, whole};
use bg_rules::{Condition, Pattern, Side, map_fits, sides_agree, unsolid_clause};
use bg_terms::ControlEntry;
use bg_values::{Cause, NameTable, Refusal, Stop};
use std::alloc::Global;
use std::collections::VecDeque;
use std::marker::Model;
use std::mem::replace;

/// The bigraph of a whole expression: valid and without idle edges. A contract sees the bigraph.
#[derive(Debug, Drop)]
pub struct Whole {
    big: Big,
}

impl Model for Whole {
    ghost use Rattle.bg_base.specs.declared.big.Big.{Big as BigValue};
    ghost use Rattle.bg_statements.specs.Settings.{IsWhole};

    ghost Value = { BigValue };

    ghost view = { λ whole. whole.big };

    ghost invariant = { λ whole. IsWhole whole.big };
}

impl Whole {
    ghost use Rattle.std.specs.Prelude.{◌≡◌, IfOk};
    ghost use Rattle.bg_base.specs.Bigraph.{IsValid};
    ghost use Rattle.bg_machine.specs.Whole.{whole};
    ghost use Rattle.bg_statements.specs.Settings.{IsWhole};

    /// The bigraph without its idle edges.
    fn of(alloc: Global, big: Big) -> Mem<Whole>
        requires { IsValid big }
        ensures { IfOk result (λ made. made ≡ whole big) }
    {
        let big = whole(alloc, big)?;
        Ok(Whole { big })
    }

    /// The bigraph.
    pub fn big(&self) -> &Big
        ensures same { result.now ≡ self.now }
        ensures kept { IsWhole self.now }
    {
        &self.big
    }

    /// The bigraph, given back.
    pub fn into_big(self) -> Big
        ensures same { result ≡ self }
        ensures kept { IsWhole self }
    {
        self.big
    }
}

/// A condition of a rule, with the bigraph that its pattern comes to: whether it has to occur, on which side, and the
/// token of the condition's `in`.
#[derive(Debug, Drop)]
pub struct ConditionValue {
    pub positive: bool,
    pub side: Side,
    pub at: u32,
    pub big: Whole,
}

/// What a rule comes to, for some values of its formals: the parts of a rule of `bg_rules` but its label and its class.
#[derive(Debug, Drop)]
pub struct RuleValue {
    pub redex: Pattern,
    pub reactum: Whole,
    pub map: Map,
    pub conditions: Rows<Condition>,
}

/// What expressions are evaluated in: the controls, the definitions before by their code, and the values of the
/// formals. No arity is above 16.
#[derive(Drop)]
pub(crate) struct Setting<'a> {
    pub(crate) controls: &'a NameTable<ControlEntry>,
    pub(crate) definitions: &'a [Rows<Operation>],
    pub(crate) values: &'a [Value],
}

impl<'a> Model for Setting<'a> {
    ghost use Rattle.bg_machine.specs.Calls.{AreSmall};
    ghost use Rattle.bg_statements.specs.Settings.{SettingParts};

    ghost Value = { SettingParts };

    ghost view = { λ setting. record { controls = setting.controls.now; definitions = setting.definitions.now; values = setting.values.now } };

    ghost invariant = { λ setting. AreSmall setting.controls.now };
}

impl<'a> Setting<'a> {
    ghost use Rattle.std.specs.Prelude.{◌≡◌, List};
    ghost use Rattle.bg_code.specs.Code.{code_of};
    ghost use Rattle.bg_statements.specs.Calls.{GivesListAnd, coded_setting, condition_codes, condition_code, rule_code};
    ghost use Rattle.bg_statements.specs.InTurn.{in_turn};
    ghost use Rattle.bg_statements.specs.RuleValues as definition;
    ghost use Rattle.bg_statements.specs.Rules.{ConditionExpression, RuleExpression};
    ghost use Rattle.bg_terms.specs.Expressions.{Expression};
    ghost use Rattle.bg_values.specs.Outcome.{GivesAnd, Goes};

    /// What a rule comes to, or its first refusal. Its expressions count their terms together.
    pub(crate) fn rule_value(
        &self,
        alloc: Global,
        rule: &RuleCode,
        met: &mut Met,
    ) -> Result<RuleValue, Stop>
        ensures { (s : definition.Setting) (r : RuleExpression) → self.now ≡ coded_setting s → rule.now ≡ rule_code r
            → GivesAnd result met.new (definition.rule_valued s r met.old) }
    {
        let redex = self.whole_value(alloc, rule.redex.as_slice(), met)?;
        let reactum = self.whole_value(alloc, rule.reactum.as_slice(), met)?;
        let conditions = self.condition_values(alloc, rule.conditions.as_slice(), met)?;
        let map = map_or_identity(alloc, &rule.map, redex.big())?;
        rule_tested(alloc, rule.at, redex, reactum, map, conditions)
    }

    /// The bigraph of a whole expression.
    pub(crate) fn whole_value(
        &self,
        alloc: Global,
        code: &[Operation],
        met: &mut Met,
    ) -> Result<Whole, Stop>
        ensures { (s : definition.Setting) (e : Expression) → self.now ≡ coded_setting s → code.now ≡ code_of e
            → GivesAnd result met.new (definition.whole_value s e met.old) }
    {
        let before = replace(met, Met::begun(Signature::new(alloc)));
        let (big, after) = evaluate(
            alloc,
            self.controls,
            self.definitions,
            self.values,
            code,
            before,
        )?;
        *met = after;
        let whole = Whole::of(alloc, big)?;
        Ok(whole)
    }

    /// The conditions, each with the bigraph that its pattern comes to.
    fn condition_values(
        &self,
        alloc: Global,
        conditions: &[ConditionCode],
        met: &mut Met,
    ) -> Result<Vec<ConditionValue>, Stop>
        ensures { (s : definition.Setting) (cs : List ConditionExpression) → self.now ≡ coded_setting s → conditions.now ≡ condition_codes cs
            → GivesListAnd result met.new (definition.conditions_valued s cs met.old) }
    {
        let mut found = Vec::new(alloc);
        self.add_values(alloc, conditions, &mut found, met)?;
        Ok(found)
    }

    fn add_values(
        &self,
        alloc: Global,
        conditions: &[ConditionCode],
        found: &mut Vec<ConditionValue>,
        met: &mut Met,
    ) -> Result<(), Stop>
        ensures { (s : definition.Setting) (cs : List ConditionExpression) → self.now ≡ coded_setting s → conditions.now ≡ condition_codes cs
            → Goes result (found.new.items, met.new) (in_turn (definition.with_value s) cs (found.old.items, met.old)) }
    {
        for condition in conditions {
            self.add_value(alloc, condition, found, met)?;
        }
        Ok(())
    }

    fn add_value(
        &self,
        alloc: Global,
        condition: &ConditionCode,
        found: &mut Vec<ConditionValue>,
        met: &mut Met,
    ) -> Result<(), Stop>
        ensures { (s : definition.Setting) (c : ConditionExpression) → self.now ≡ coded_setting s → condition.now ≡ condition_code c
            → Goes result (found.new.items, met.new) (definition.with_value s c (found.old.items, met.old)) }
    {
        let big = self.whole_value(alloc, condition.pattern.as_slice(), met)?;
        found.push(ConditionValue {
            positive: condition.positive,
            side: condition.side,
            at: condition.at,
            big,
        })?;
        Ok(())
    }
}

/// The map, or where it is missing the identity on the sites of the redex.
fn map_or_identity(alloc: Global, map: &Option<Map>, redex: &Big) -> Mem<Map>
    ensures { IfOk result (λ made. made ≡ definition.map_or_identity map.now redex.now) }
{
    match map {
        Some(entries) => entries.copy(alloc),
        None => Rows::try_from_vec(numbers_below(alloc, redex.sites.len())?),
    }
}

/// The rule of these parts; or `SidesDiffer` (47), `BadMap` (48) or `NotSolid` (49), in this order.
fn rule_tested(
    alloc: Global,
    at: u32,
    redex: Whole,
    reactum: Whole,
    map: Map,
    conditions: Vec<ConditionValue>,
) -> Result<RuleValue, Stop>
    ensures { Gives result (definition.rule_tested at redex reactum map conditions.items) }
{
    let redex = redex_tested(alloc, at, redex, reactum.big(), &map)?;
    let conditions = conditions_tested(alloc, conditions)?;
    Ok(RuleValue {
        redex,
        reactum,
        map,
        conditions,
    })
}

/// The pattern that the redex is, tested beside the other side and the map.
fn redex_tested(
    alloc: Global,
    at: u32,
    redex: Whole,
    reactum: &Big,
    map: &Map,
) -> Result<Pattern, Stop>
    ensures { Gives result (definition.redex_tested at redex reactum.now map.now) }
{
    sides_tested(at, redex.big(), reactum, map)?;
    solid_at(alloc, at, redex)
}

/// Refuses with `SidesDiffer` (47) or `BadMap` (48), in this order. Takes no memory.
fn sides_tested(at: u32, redex: &Big, reactum: &Big, map: &Map) -> Result<(), Refusal>
    ensures { result ≡ definition.sides_tested at redex.now reactum.now map.now }
{
    if !sides_agree(redex, reactum) {
        return Err(Refusal::new(Cause::SidesDiffer, at));
    }
    if !map_fits(redex, reactum, map) {
        return Err(Refusal::new(Cause::BadMap, at));
    }
    Ok(())
}

/// The pattern that the bigraph is, or `NotSolid` (49). Costs time n log n in the size of the bigraph, and memory in
/// proportion to it.
pub(crate) fn solid_at(alloc: Global, at: u32, big: Whole) -> Result<Pattern, Stop>
    ensures { Gives result (definition.solid_at at big) }
{
    match unsolid_clause(alloc, big.big())? {
        None => Ok(Pattern::from_solid(big.into_big())),
        Some(clause) => Err(Stop::refuse(Cause::NotSolid(clause), at)),
    }
}

/// The conditions, whose patterns are solid.
fn conditions_tested(
    alloc: Global,
    conditions: Vec<ConditionValue>,
) -> Result<Rows<Condition>, Stop>
    ensures { Gives result (definition.conditions_tested conditions.items) }
{
    let mut tested = Vec::new(alloc);
    add_tested(alloc, conditions, &mut tested)?;
    let rows = Rows::try_from_vec(tested)?;
    Ok(rows)
}

/// Puts them behind these, in turn.
fn add_tested(
    alloc: Global,
    conditions: Vec<ConditionValue>,
    tested: &mut Vec<Condition>,
) -> Result<(), Stop>
    ensures { Goes result tested.new.items (in_turn definition.with_tested conditions.items tested.old.items) }
{
    let mut waiting = VecDeque::from_vec(conditions);
    while let Some(condition) = waiting.pop_front() {
        add_one_tested(alloc, condition, tested)?;
    }
    Ok(())
}

fn add_one_tested(
    alloc: Global,
    condition: ConditionValue,
    tested: &mut Vec<Condition>,
) -> Result<(), Stop>
    ensures { Goes result tested.new.items (definition.with_tested condition tested.old.items) }
{
    let pattern = solid_at(alloc, condition.at, condition.big)?;
    tested.push(Condition {
        positive: condition.positive,
        side: condition.side,
        pattern,
    })?;
    Ok(())
}
