//! References of the block.
ghost use Rattle.bg_elab.specs.Calls.{reference_code};
ghost use Rattle.bg_elab.specs.References as definition;
ghost use Rattle.bg_statements.specs.Calls.{ReadsAs};
ghost use Rattle.bg_values.specs.Outcome.{Gives};

use crate::occurring::{Occurring, parameters_in};
use bg_base::{Ident, Label, Value};
use bg_code::{Arguments, Visible, argument_count, arguments_of, word_at};
use bg_lists::{Duplicate, Rows};
use bg_trees::expressions::SynRef;
use bg_values::{Cause, NameTable, ParameterValues, Scope, Stop};
use std::alloc::Global;

/// A reference to a bigraph or a rule: its token, the name, the number of what it names; the arguments, in which the
/// parameters that occur are visible; and the values of each of these parameters.
#[derive(Debug, Drop)]
pub struct Reference {
    pub at: u32,
    pub name: Ident,
    pub number: u32,
    pub arguments: Arguments,
    pub lists: Rows<ParameterValues>,
}

impl Reference {
    ghost use Rattle.std.specs.Prelude.{◌≡◌};
    ghost use Rattle.bg_elab.specs.Calls.{reference_code};
    ghost use Rattle.bg_elab.specs.References.{Reference as Parts};
    ghost use Rattle.bg_elab.specs.Systems.{label_with};
    ghost use Rattle.bg_values.specs.Outcome.{Gives};

    /// What the reference is called, where the parameters that occur have these values.
    pub(crate) fn label(&self, alloc: Global, choice: &[Value]) -> Result<Label, Stop>
        ensures { (r : Parts) → self.now ≡ reference_code r → Gives result (label_with r choice.now) }
    {
        let values = self.arguments.values(alloc, choice)?;
        let args = Rows::try_from_vec(values)?;
        let name = self.name.copy(alloc)?;
        Ok(Label { name, args })
    }
}

/// A reference to one of these names, where these parameters are visible. It refuses with the first cause, at the name:
/// `UnknownName` (41) where it is not there, `WrongArguments` (45) where the number of arguments differs; then the names
/// in the arguments. Linear in its tokens.
pub(crate) fn reference_of(
    alloc: Global,
    text: &Scope,
    parameters: &NameTable<ParameterValues>,
    names: &NameTable<u32>,
    tree: &SynRef,
) -> Result<Reference, Stop>
    ensures { ReadsAs reference_code result (definition.reference_read text.now parameters.now names.now tree.now) }
{
    let found = match names.look_up(text.spelling(tree.part1)) {
        Some(found) => found,
        None => return Err(Stop::refuse(Cause::UnknownName, tree.part1)),
    };
    if argument_count(&tree.part2) != *found.value as usize {
        return Err(Stop::refuse(Cause::WrongArguments, tree.part1));
    }
    let occurring = parameters_in(alloc, text, parameters, &tree.part2)?;
    reference_with(alloc, text, occurring, found.number, tree)
}

/// The reference in whose arguments these parameters are visible.
fn reference_with(
    alloc: Global,
    text: &Scope,
    occurring: Occurring,
    number: u32,
    tree: &SynRef,
) -> Result<Reference, Stop>
    ensures { ReadsAs reference_code result (definition.reference_with text.now occurring number tree.now) }
{
    let name = name_of(alloc, text, tree.part1)?;
    let Occurring {
        names,
        lists: values,
    } = occurring;
    let scope = Scope {
        bytes: text.bytes,
        tokens: text.tokens,
        names: &names,
    };
    let arguments = arguments_of(alloc, &scope, &tree.part2)?;
    let lists = Rows::try_from_vec(values)?;
    Ok(Reference {
        at: tree.part1,
        name,
        number,
        arguments,
        lists,
    })
}

/// The identifier that the token spells.
fn name_of(alloc: Global, text: &Scope, token: u32) -> Result<Ident, Stop>
    ensures { Gives result (definition.name_read text.now token) }
{
    let visible = Visible {
        scope: Scope {
            bytes: text.bytes,
            tokens: text.tokens,
            names: text.names,
        },
        controls: &NameTable::new(alloc),
        bigraphs: &NameTable::new(alloc),
    };
    word_at(alloc, &visible, token)
}
