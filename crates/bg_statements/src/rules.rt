//! Statements of rules.
ghost use Rattle.std.specs.Prelude.{◌≡◌, map};
ghost use Rattle.bg_code.specs.Code.{code_of};
ghost use Rattle.bg_machine.specs.Calls.{AreSmall};
ghost use Rattle.bg_statements.specs.Calls.{rule_code};
ghost use Rattle.bg_statements.specs.Defined.{Defined};
ghost use Rattle.bg_statements.specs.Rules.{RuleExpression};
ghost use Rattle.bg_statements.specs.Statements as definition;
ghost use Rattle.bg_values.specs.Outcome.{Gives};

use crate::definitions::Definitions;
use crate::names::{check_new, formals_of};
use crate::rule_code::{RuleCode, rule_of};
use crate::rule_values::Setting;
use bg_base::Signature;
use bg_code::{Operation, Visible};
use bg_lists::Rows;
use bg_machine::Met;
use bg_terms::ControlEntry;
use bg_trees::statements::SynReact;
use bg_values::{NameTable, Scope, Stop};
use std::alloc::Global;
use std::mem::replace;

impl Definitions {
    ghost use Rattle.std.specs.Prelude.{◌≡◌, IsNone, Ok};
    ghost use Rattle.bg_statements.specs.Calls.{Defines, ReadsAs, kept, kept_after, rule_code};
    ghost use Rattle.bg_statements.specs.Defined.{Defined, visible_with};
    ghost use Rattle.bg_statements.specs.Rules.{RuleExpression, rule_read};
    ghost use Rattle.bg_statements.specs.Statements as definition;
    ghost use Rattle.bg_values.specs.Names.{name_number};
    ghost use Rattle.bg_values.specs.Outcome.{Goes};

    /// A rule. It refuses with the first cause: 42 at its name where it is there, 42 at a formal that repeats, then the
    /// names of its expressions in the order of the text. Where it has no formals, then what the evaluation of its
    /// redex, its reactum and its conditions refuses, in this order; then at its name 47 where the sides differ, 48
    /// where the map does not fit, 49 where the redex is not solid; then 49 at the `in` of a condition that is not.
    /// Linear in the statement, where it has formals; else it costs what `evaluate` costs for each expression, and what
    /// the tests of `bg_rules` cost.
    pub(crate) fn add_rule(
        &mut self,
        alloc: Global,
        text: &Scope,
        tree: &SynReact,
    ) -> Result<(), Stop>
        ensures { Defines result self.old self.new (definition.with_rule text.now tree.now) }
    {
        check_new(text, &self.rules, tree.part1)?;
        let formals = formals_of(alloc, text, &tree.part2)?;
        let code = self.rule_in(alloc, text, &formals, tree)?;
        self.add_rule_code(alloc, text.spelling(tree.part1), formals.len(), code)
    }

    /// The code of a rule in whose expressions these formals are visible.
    fn rule_in(
        &self,
        alloc: Global,
        text: &Scope,
        formals: &NameTable<()>,
        tree: &SynReact,
    ) -> Result<RuleCode, Stop>
        ensures { (d : Defined) → self.now ≡ kept d → ReadsAs rule_code result (rule_read (visible_with text.now formals.now d) tree.now) }
    {
        let visible = Visible {
            scope: Scope {
                bytes: text.bytes,
                tokens: text.tokens,
                names: formals,
            },
            controls: &self.controls,
            bigraphs: &self.bigraphs,
        };
        rule_of(alloc, &visible, tree)
    }

    /// A rule whose word is new, by its code.
    fn add_rule_code(
        &mut self,
        alloc: Global,
        word: &[u8],
        formals: u32,
        code: RuleCode,
    ) -> Result<(), Stop>
        requires new { IsNone (name_number word.now self.old.rules) }
        ensures { (d : Defined) (rule : RuleExpression) → self.old ≡ kept d → code ≡ rule_code rule
            → Goes result self.new (kept_after (definition.with_rule_expression word.now formals rule d)) }
    {
        self.try_rule(alloc, formals, &code)?;
        self.keep_rule(alloc, word, formals, code)
    }

    /// Keeps a rule whose word is new.
    fn keep_rule(
        &mut self,
        alloc: Global,
        word: &[u8],
        formals: u32,
        code: RuleCode,
    ) -> Result<(), Stop>
        requires new { IsNone (name_number word.now self.old.rules) }
        ensures { (d : Defined) (rule : RuleExpression) → self.old ≡ kept d → code ≡ rule_code rule
            → Goes result self.new (Ok (kept (definition.and_rule word.now formals rule d))) }
    {
        self.rule_codes.push(code)?;
        self.rules.add(alloc, word, formals)?;
        Ok(())
    }

    /// Evaluates a rule without formals, for its refusals and for the controls that enter the signature.
    fn try_rule(&mut self, alloc: Global, formals: u32, code: &RuleCode) -> Result<(), Stop>
        ensures tried { (d : Defined) (rule : RuleExpression) → self.old ≡ kept d → code.now ≡ rule_code rule
            → Goes result self.new (kept_after (definition.rule_tried formals rule d)) }
        ensures rules_stay { self.new.rules ≡ self.old.rules }
    {
        if formals > 0 {
            return Ok(());
        }
        let signature = replace(&mut self.signature, Signature::new(alloc));
        self.signature = signature_after(
            alloc,
            &self.controls,
            self.codes.as_slice(),
            signature,
            code,
        )?;
        Ok(())
    }
}

/// The signature that the evaluation of a rule without formals leaves.
fn signature_after(
    alloc: Global,
    controls: &NameTable<ControlEntry>,
    definitions: &[Rows<Operation>],
    signature: Signature,
    code: &RuleCode,
) -> Result<Signature, Stop>
    requires small { AreSmall controls.now }
    ensures { (d : Defined) (rule : RuleExpression) → controls.now ≡ d.controls → definitions.now ≡ map code_of d.expressions → signature ≡ d.signature
        → code.now ≡ rule_code rule → Gives result (definition.signature_after rule d) }
{
    let mut met = Met::begun(signature);
    let setting = Setting {
        controls,
        definitions,
        values: &[],
    };
    let _ = setting.rule_value(alloc, code, &mut met)?;
    Ok(met.signature)
}
