//! From a model to the system that it describes.
ghost use Rattle.std.specs.Prelude.{◌≡◌, ◌<◌, length};
ghost use Rattle.bg_elab.specs.Elaboration as definition;
ghost use Rattle.bg_elab.specs.Systems.{elaborated, no_system, system_behind};
ghost use Rattle.bg_values.specs.Outcome.{Gives};

use crate::blocks::block_of;
use crate::fault::{ModelFault, fault_of};
use crate::systems::system_of_block;
use bg_rules::System;
use bg_statements::Uses;
use bg_text::Token;
use bg_trees::expressions::SynRef;
use bg_trees::models::{SynBlock, SynClasses, SynModel, SynParamsItem, SynPreds, SynStmtsItem};
use bg_values::{Cause, NameTable, Scope, Stop};
use std::alloc::Global;

/// The system that the model of these bytes is, whose tokens are these and whose tree is that, or its first refusal: of
/// its statements in the order of the text, then of the block: its parameters, then its names in the order of the text,
/// then `init`, the rules and the predicates.
///
/// Costs what the statements cost, and what the evaluation of each use costs. No text of a model has 4,294,967,295 bytes
/// or tokens.
pub fn elaborate(
    alloc: Global,
    bytes: &[u8],
    tokens: &[Token],
    tree: &SynModel,
) -> Result<System, ModelFault>
    requires bytes { length bytes.now < 4294967295 }
    requires tokens { length tokens.now < 4294967295 }
    ensures { definition.Elaborates result bytes.now tokens.now tree.now }
{
    let names = NameTable::new(alloc);
    let text = Scope {
        bytes,
        tokens,
        names: &names,
    };
    match system_of(alloc, &text, tree) {
        Ok(system) => Ok(system),
        Err(stop) => Err(fault_of(&text, stop)),
    }
}

/// The system of the model, or its first refusal.
fn system_of(alloc: Global, text: &Scope, tree: &SynModel) -> Result<System, Stop>
    requires { length text.now.tokens < 4294967295 }
    ensures { Gives result (elaborated text.now tree.now) }
{
    let statements = tree.part1.as_slice();
    match &tree.part2 {
        SynBlock::Way1(_, _, params, _, init, _, _, _, _, classes, _, _, preds, _) => {
            system_behind(
                alloc,
                text,
                statements,
                params.as_slice(),
                init,
                classes,
                preds,
            )
        }
        SynBlock::Way2 => no_system(alloc, text, statements),
    }
}

/// The system of a block behind these statements, or the first refusal.
fn system_behind(
    alloc: Global,
    text: &Scope,
    statements: &[SynStmtsItem],
    params: &[SynParamsItem],
    init: &SynRef,
    classes: &SynClasses,
    preds: &SynPreds,
) -> Result<System, Stop>
    ensures { Gives result (system_behind text.now statements.now params.now init.now classes.now preds.now) }
{
    let uses = Uses::of(alloc, text, statements, params)?;
    let block = block_of(alloc, text, &uses.spaces(), init, classes, preds)?;
    system_of_block(alloc, &uses, block)
}

/// The refusal of a model without a block: of a statement, or at the end of input.
fn no_system(alloc: Global, text: &Scope, statements: &[SynStmtsItem]) -> Result<System, Stop>
    requires { length text.now.tokens < 4294967295 }
    ensures { Gives result (no_system text.now statements.now) }
{
    let _uses = Uses::of(alloc, text, statements, &[])?;
    Err(Stop::refuse(Cause::NoBlock, end_of(text)))
}

/// The number of tokens, which stands for the end of input.
fn end_of(text: &Scope) -> u32
    requires { length text.now.tokens < 4294967295 }
    ensures { result ≡ length text.now.tokens }
{
    text.tokens.len() as u32
}
