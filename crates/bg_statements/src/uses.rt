//! Uses of definitions: what the block of a model refers to.
ghost use Rattle.std.specs.Prelude.{◌≡◌};
ghost use Rattle.bg_rules.specs.Rules.{IsRule};
ghost use Rattle.bg_statements.specs.Settings.{IsWholeValue};
ghost use Rattle.bg_statements.specs.Uses as definition;

use crate::definitions::Definitions;
use crate::rule_code::RuleCode;
use crate::rule_values::{RuleValue, Setting, Whole, solid_at};
use bg_base::{Big, Label, Signature, Value};
use bg_code::Operation;
use bg_lists::Rows;
use bg_machine::Met;
use bg_rules::{Host, Predicate, Rule};
use bg_trees::models::{SynParamsItem, SynStmtsItem};
use bg_values::{Cause, NameTable, ParameterValues, Refusal, Scope, Stop};
use std::alloc::Global;
use std::marker::Model;

/// The names that the block may use: the bigraphs and the rules, each with how many formals it has, and the parameters,
/// each with its values.
#[derive(Drop)]
pub struct NameSpaces<'a> {
    pub bigraphs: &'a NameTable<u32>,
    pub rules: &'a NameTable<u32>,
    pub parameters: &'a NameTable<ParameterValues>,
}

impl<'a> Model for NameSpaces<'a> {
    ghost use Rattle.bg_statements.specs.Uses.{NameSpacesParts};

    ghost Value = { NameSpacesParts };

    ghost view = { λ spaces. record {
      bigraphs = spaces.bigraphs.now;
      rules = spaces.rules.now;
      parameters = spaces.parameters.now;
    } };
}

/// The definitions of a whole text, for their uses: each name of a bigraph, or of a rule, has an expression. A use may
/// meet controls that were not met before, so each takes the signature reached before it, and gives the one reached
/// behind it beside its value. A number that no name has is refused with 41 at the place of the use; one that a name has
/// never is for that reason ([`crate::laws`]). A contract sees what is kept of the definitions.
#[derive(Drop)]
pub struct Uses {
    definitions: Definitions,
}

impl Model for Uses {
    ghost use Rattle.bg_statements.specs.Calls.{IsKeptOfSound, Kept};

    ghost Value = { Kept };

    ghost view = { λ uses. uses.definitions };

    ghost invariant = { λ uses. IsKeptOfSound uses.definitions };
}

impl Uses {
    ghost use Rattle.std.specs.Prelude.{◌≡◌, IfOk};
    ghost use Rattle.bg_statements.specs.Calls.{IsKeptOfSound, coded_setting, kept, kept_after};
    ghost use Rattle.bg_statements.specs.Defined.{Defined};
    ghost use Rattle.bg_statements.specs.Settings.{IsWholeValue};
    ghost use Rattle.bg_statements.specs.Uses as definition;
    ghost use Rattle.bg_values.specs.Outcome.{Gives};

    /// What these statements define, and these parameters of a block behind them, for their uses; or the first refusal
    /// of one of them. Costs what they cost one by one.
    pub fn of(
        alloc: Global,
        text: &Scope,
        statements: &[SynStmtsItem],
        parameters: &[SynParamsItem],
    ) -> Result<Uses, Stop>
        ensures { Gives result (kept_after (definition.defined_by text.now statements.now parameters.now)) }
    {
        let mut definitions = Definitions::new(alloc);
        definitions.add_statements(alloc, text, statements)?;
        definitions.add_parameters(alloc, text, parameters)?;
        Ok(Uses { definitions })
    }

    /// The names that the block may use.
    pub fn spaces(&self) -> NameSpaces<'_>
        ensures same { result ≡ record { bigraphs = self.now.bigraphs; rules = self.now.rules; parameters = self.now.parameters } }
        ensures kept { IsKeptOfSound self.now }
    {
        NameSpaces {
            bigraphs: &self.definitions.bigraphs,
            rules: &self.definitions.rules,
            parameters: &self.definitions.parameters,
        }
    }

    /// The controls that the statements have met.
    pub fn signature(&self) -> &Signature
        ensures same { result.now ≡ self.now.signature }
        ensures kept { IsKeptOfSound self.now }
    {
        &self.definitions.signature
    }

    /// What a run begins with: the host of the bigraph with that number, where its formals have these values, and the
    /// signature then reached from this one. Refuses what its evaluation refuses, then with `NotGround` (46) at `at` a
    /// bigraph that is not ground. Costs what `evaluate` costs.
    pub fn host(
        &self,
        alloc: Global,
        at: u32,
        number: u32,
        values: &[Value],
        signature: Signature,
    ) -> Result<(Host, Signature), Stop>
        ensures { (d : Defined) → self.now ≡ kept d → Gives result (definition.host_used d at number values.now signature) }
    {
        let (whole, reached) = self.bigraph(alloc, at, number, values, signature)?;
        let host = host_of(at, whole)?;
        Ok((host, reached))
    }

    /// The predicate that the bigraph with that number is, where its formals have the values of the label, and the
    /// signature then reached from this one. Refuses what its evaluation refuses, then 49 at `at` where it is not solid.
    /// Costs what `evaluate` and the test cost.
    pub fn predicate(
        &self,
        alloc: Global,
        at: u32,
        number: u32,
        label: Label,
        signature: Signature,
    ) -> Result<(Predicate, Signature), Stop>
        ensures { (d : Defined) → self.now ≡ kept d → Gives result (definition.predicate_used d at number label signature) }
    {
        let (whole, reached) = self.bigraph(alloc, at, number, label.args.as_slice(), signature)?;
        let pattern = solid_at(alloc, at, whole)?;
        Ok((Predicate { label, pattern }, reached))
    }

    /// The rule with that number, where its formals have the values of the label, and the signature then reached from
    /// this one. It refuses with the first cause: what the evaluation of its redex, its reactum and its conditions
    /// refuses, in this order; then at its name 47 where the sides differ, 48 where the map does not fit, 49 where the
    /// redex is not solid; then 49 at the `in` of a condition that is not. Costs what `evaluate` costs for each
    /// expression, and what the tests of `bg_rules` cost.
    pub fn rule(
        &self,
        alloc: Global,
        at: u32,
        number: u32,
        label: Label,
        class: u32,
        signature: Signature,
    ) -> Result<(Rule, Signature), Stop>
        ensures { (d : Defined) → self.now ≡ kept d → Gives result (definition.rule_used d at number label class signature) }
    {
        let code = match self.rule_codes().get(number as usize) {
            Some(code) => code,
            None => return Err(Stop::refuse(Cause::UnknownName, at)),
        };
        let setting = self.setting(label.args.as_slice());
        let mut met = Met::begun(signature);
        let value = setting.rule_value(alloc, code, &mut met)?;
        Ok((rule_of(label, class, value), met.signature))
    }

    /// The bigraph with that number, as a whole expression whose formals have these values, and the signature then
    /// reached from this one.
    fn bigraph(
        &self,
        alloc: Global,
        at: u32,
        number: u32,
        values: &[Value],
        signature: Signature,
    ) -> Result<(Whole, Signature), Stop>
        ensures value { (d : Defined) → self.now ≡ kept d → Gives result (definition.bigraph_used d at number values.now signature) }
        ensures whole { IfOk result (λ found. IsWholeValue found.0) }
    {
        let code = match self.codes().get(number as usize) {
            Some(code) => code,
            None => return Err(Stop::refuse(Cause::UnknownName, at)),
        };
        let setting = self.setting(values);
        let mut met = Met::begun(signature);
        let whole = setting.whole_value(alloc, code.as_slice(), &mut met)?;
        Ok((whole, met.signature))
    }

    /// The codes of the bigraphs.
    fn codes(&self) -> &[Rows<Operation>]
        ensures same { result.now ≡ self.now.codes }
        ensures kept { IsKeptOfSound self.now }
    {
        self.definitions.codes.as_slice()
    }

    /// The codes of the rules.
    fn rule_codes(&self) -> &[RuleCode]
        ensures same { result.now ≡ self.now.rule_codes }
        ensures kept { IsKeptOfSound self.now }
    {
        self.definitions.rule_codes.as_slice()
    }

    /// What expressions are evaluated in, where the formals have these values.
    fn setting<'a>(&'a self, values: &'a [Value]) -> Setting<'a>
        ensures { (d : Defined) → self.now ≡ kept d → result ≡ coded_setting (definition.setting_with d values.now) }
    {
        Setting {
            controls: &self.definitions.controls,
            definitions: self.definitions.codes.as_slice(),
            values,
        }
    }
}

/// The host of the bigraph, or `NotGround` (46).
fn host_of(at: u32, whole: Whole) -> Result<Host, Refusal>
    requires { IsWholeValue whole }
    ensures { result ≡ definition.ground_at at whole }
{
    if is_ground(whole.big()) {
        Ok(Host::new(whole.into_big()))
    } else {
        Err(Refusal::new(Cause::NotGround, at))
    }
}

/// Whether there is no site and no inner name.
fn is_ground(big: &Big) -> bool
    ensures { result ≡ definition.is_ground big.now }
{
    big.sites.is_empty() && big.inner.is_empty()
}

/// The rule with that label and of that class.
fn rule_of(label: Label, class: u32, value: RuleValue) -> Rule
    requires { IsRule (definition.rule_parts label class value) }
    ensures { result ≡ definition.rule_parts label class value }
{
    let RuleValue {
        redex,
        reactum,
        map,
        conditions,
    } = value;
    match Rule::new(label, redex, reactum.into_big(), map, conditions, class) {
        Ok(rule) => rule,
        Err(_) => unreachable!(),
    }
}
