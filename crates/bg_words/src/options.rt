//! The command and the options, as clap takes them.
ghost use Rattle.std.specs.Prelude.{◌≡◌, IfOk, false, codes};
ghost use Rattle.clap.specs.Words.{app_of, rule_of, with_rule};
ghost use Rattle.bg_words.specs.Options as definition;

use crate::numbers::Numbers;
use bg_base::limits::MOST_STEPS;
use clap::{Arg, ArgAction, Command};
use std::alloc::{AllocError, Global};

/// The numbers of `--most`.
pub(crate) const MOST: Numbers = Numbers {
    least: 1,
    greatest: 1_000_000,
    default: 100_000,
};

/// The numbers of `--workers`.
pub(crate) const WORKERS: Numbers = Numbers {
    least: 1,
    greatest: 64,
    default: 1,
};

/// The numbers of `--steps`.
pub(crate) const STEPS: Numbers = Numbers {
    least: 0,
    greatest: MOST_STEPS as u64,
    default: 1_000,
};

/// The numbers of `--seed`.
pub(crate) const SEED: Numbers = Numbers {
    least: 0,
    greatest: 18_446_744_073_709_551_615,
    default: 0,
};

/// The numbers of `--size`.
pub(crate) const SIZE: Numbers = Numbers {
    least: 1,
    greatest: 300,
    default: 10,
};

/// The program, as a command of clap: a command and options, where no abbreviation of an option is one.
pub(crate) fn program<'a>(alloc: Global) -> Result<Command<'a>, AllocError>
    ensures { IfOk result (λ program. app_of program ≡ definition.the_app) }
{
    let program = plain(alloc).arg(command(alloc))?;
    let program = with_option(alloc, program, "most")?;
    let program = with_option(alloc, program, "workers")?;
    let program = with_option(alloc, program, "steps")?;
    let program = with_option(alloc, program, "seed")?;
    let program = with_option(alloc, program, "size")?;
    let program = program.arg(explain(alloc))?;
    Ok(program)
}

/// The program without its command and its options. It offers no help and no version.
fn plain<'a>(alloc: Global) -> Command<'a>
    ensures { app_of result ≡ definition.plain_app }
{
    Command::new(alloc, "bigengine")
        .disable_help_flag(true)
        .disable_version_flag(true)
}

/// The program with one more option, which takes a value.
fn with_option<'a>(
    alloc: Global,
    program: Command<'a>,
    name: &'a str,
) -> Result<Command<'a>, AllocError>
    ensures { IfOk result (λ larger. app_of larger ≡ with_rule (app_of program.entry) (definition.option_rule name.entry.now)) }
{
    let option = Arg::new(alloc, name).long(name).action(ArgAction::Set);
    program.arg(option)
}

/// The command.
fn command<'a>(alloc: Global) -> Arg<'a>
    ensures rule { rule_of result ≡ definition.command_rule }
    ensures local { result.global ≡ false }
{
    Arg::new(alloc, "command")
        .action(ArgAction::Set)
        .required(true)
}

/// The flag `--explain`.
fn explain<'a>(alloc: Global) -> Arg<'a>
    ensures rule { rule_of result ≡ definition.flag_rule (codes "explain") }
    ensures local { result.global ≡ false }
{
    Arg::new(alloc, "explain")
        .long("explain")
        .action(ArgAction::SetTrue)
}
