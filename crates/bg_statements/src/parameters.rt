//! Statements of parameters.
use crate::definitions::Definitions;
use crate::names::check_new;
use bg_trees::models::SynParamsItem;
use bg_trees::statements::SynParam;
use bg_values::{Scope, Stop, parameter_name, parameter_values};
use std::alloc::Global;

impl Definitions {
    ghost use Rattle.bg_statements.specs.Calls.{Defines};
    ghost use Rattle.bg_statements.specs.Statements as definition;

    /// The parameters of a block in the order of the text, or the first refusal of one of them. Costs what they cost
    /// one by one.
    pub(crate) fn add_parameters(
        &mut self,
        alloc: Global,
        text: &Scope,
        items: &[SynParamsItem],
    ) -> Result<(), Stop>
        ensures { Defines result self.old self.new (definition.with_parameters text.now items.now) }
    {
        for item in items {
            self.add_parameter(alloc, text, &item.part1)?;
        }
        Ok(())
    }

    /// A parameter with its values. It refuses with the first cause: 42 at its name where it is there, then what
    /// [`parameter_values`] refuses. Linear in the statement.
    pub(crate) fn add_parameter(
        &mut self,
        alloc: Global,
        text: &Scope,
        tree: &SynParam,
    ) -> Result<(), Stop>
        ensures { Defines result self.old self.new (definition.with_parameter text.now tree.now) }
    {
        let token = parameter_name(tree);
        check_new(text, &self.parameters, token)?;
        let values = parameter_values(alloc, text, tree)?;
        self.parameters.add(alloc, text.spelling(token), values)?;
        Ok(())
    }
}
