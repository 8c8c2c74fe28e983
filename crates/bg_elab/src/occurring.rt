//! The parameters that occur in the arguments of a reference.
ghost use Rattle.std.specs.Prelude.{◌≡◌, ◌-◌, ◌++◌, ◌∷◌, [], IfOk, IsNone};
ghost use Rattle.bg_base.specs.Elementary.{counted};
ghost use Rattle.bg_elab.specs.References as definition;
ghost use Rattle.bg_values.specs.Names.{name_number};

use bg_lists::{Duplicate, Mem};
use bg_trees::expressions::SynArgs;
use bg_values::{NameTable, ParameterValues, Scope};
use std::alloc::Global;
use std::marker::Model;

/// The parameters that occur in some arguments, in the order of their first occurrence: their names, and the values of
/// each.
#[derive(Drop)]
pub(crate) struct Occurring {
    pub(crate) names: NameTable<()>,
    pub(crate) lists: Vec<ParameterValues>,
}

impl Model for Occurring {
    ghost use Rattle.bg_elab.specs.References.{OccurringParts};

    ghost Value = { OccurringParts };

    ghost view = { λ occurring. record { names = occurring.names; lists = occurring.lists.items } };
}

/// The parameters that occur in the arguments. Linear in their tokens: the values are shared, and none is copied.
pub(crate) fn parameters_in(
    alloc: Global,
    text: &Scope,
    parameters: &NameTable<ParameterValues>,
    args: &SynArgs,
) -> Mem<Occurring>
    ensures { IfOk result (λ found. found ≡ definition.occurring text.now parameters.now args.now) }
{
    let mut found = Occurring {
        names: NameTable::new(alloc),
        lists: Vec::new(alloc),
    };
    match args {
        SynArgs::Way1(open, _, _, close) => add_tokens(
            alloc, text, parameters, *open, *close, &mut found,
        )?,
        SynArgs::Way2 => {}
    }
    Ok(found)
}

/// Adds the parameters that the tokens from `from` to before `to` name.
fn add_tokens(
    alloc: Global,
    text: &Scope,
    parameters: &NameTable<ParameterValues>,
    from: u32,
    to: u32,
    found: &mut Occurring,
) -> Mem<()>
    ensures { IfOk result (λ _. found.new ≡ definition.with_tokens text.now parameters.now (counted from (to - from)) found.old) }
{
    for token in from..to {
        add_word(alloc, parameters, text.spelling(token), found)?;
    }
    Ok(())
}

/// Adds the parameter that the word names, where it names one that is not there yet.
fn add_word(
    alloc: Global,
    parameters: &NameTable<ParameterValues>,
    word: &[u8],
    found: &mut Occurring,
) -> Mem<()>
    ensures { IfOk result (λ _. found.new ≡ definition.with_word parameters.now word.now found.old) }
{
    if found.names.find(word).is_some() {
        return Ok(());
    }
    match parameters.look_up(word) {
        Some(parameter) => add_parameter(alloc, word, parameter.value, found),
        None => Ok(()),
    }
}

/// Adds a parameter whose word is new, with its values.
fn add_parameter(
    alloc: Global,
    word: &[u8],
    values: &ParameterValues,
    found: &mut Occurring,
) -> Mem<()>
    requires { IsNone (name_number word.now found.old.names) }
    ensures { IfOk result (λ _. found.new ≡ record { names = found.old.names ++ (word.now, tt) ∷ []; lists = found.old.lists ++ values.now ∷ [] }) }
{
    found.lists.push(values.copy(alloc)?)?;
    found.names.add(alloc, word, ())?;
    Ok(())
}
