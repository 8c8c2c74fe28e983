//! Any statement, and statements in the order of the text.
use crate::definitions::Definitions;
use bg_base::Kind;
use bg_trees::models::SynStmtsItem;
use bg_trees::statements::{SynAfterFun, SynStmt};
use bg_values::{Scope, Stop};
use std::alloc::Global;

impl Definitions {
    ghost use Rattle.bg_statements.specs.Calls.{Defines};
    ghost use Rattle.bg_statements.specs.Statements as definition;

    /// Statements in the order of the text, or the first refusal of one of them. Costs what they cost one by one.
    pub(crate) fn add_statements(
        &mut self,
        alloc: Global,
        text: &Scope,
        items: &[SynStmtsItem],
    ) -> Result<(), Stop>
        ensures { Defines result self.old self.new (definition.with_statements text.now items.now) }
    {
        for item in items {
            self.add_statement(alloc, text, &item.part1)?;
        }
        Ok(())
    }

    /// A statement of any kind: what `add_control`, `add_bigraph`, `add_rule` or `add_parameter` does. `fun` has no
    /// effect of its own.
    pub(crate) fn add_statement(
        &mut self,
        alloc: Global,
        text: &Scope,
        tree: &SynStmt,
    ) -> Result<(), Stop>
        ensures { Defines result self.old self.new (definition.with_statement text.now tree.now) }
    {
        match tree {
            SynStmt::Way1(_, _, _, control) => self.add_control(alloc, text, Kind::Atomic, control),
            SynStmt::Way2(_, rest) => self.add_after_fun(alloc, text, rest),
            SynStmt::Way3(_, control) => self.add_control(alloc, text, Kind::Normal, control),
            SynStmt::Way4(_, bigraph) => self.add_bigraph(alloc, text, bigraph),
            SynStmt::Way5(_, rule) => self.add_rule(alloc, text, rule),
            SynStmt::Way6(parameter) => self.add_parameter(alloc, text, parameter),
        }
    }

    /// What stands behind `fun`.
    fn add_after_fun(&mut self, alloc: Global, text: &Scope, tree: &SynAfterFun) -> Result<(), Stop>
        ensures { Defines result self.old self.new (definition.with_after_fun text.now tree.now) }
    {
        match tree {
            SynAfterFun::Way1(_, _, control) => self.add_control(
                alloc,
                text,
                Kind::Atomic,
                control,
            ),
            SynAfterFun::Way2(_, control) => self.add_control(alloc, text, Kind::Normal, control),
            SynAfterFun::Way3(_, bigraph) => self.add_bigraph(alloc, text, bigraph),
            SynAfterFun::Way4(_, rule) => self.add_rule(alloc, text, rule),
        }
    }
}
