//! What is asked for.
ghost use Rattle.std.specs.Prelude.{◌≡◌, ◌≤◌, ◌<◌, ◌^◌, option_map};
ghost use Rattle.clap.specs.Words.{first_of, found_of, rows_of};
ghost use Rattle.bg_words.specs.Words as definition;

use crate::command::{Command, command_of};
use crate::numbers::{Numbers, number_of};
use crate::options::{MOST, SEED, SIZE, STEPS, WORKERS};
use clap::ArgMatches;

/// What the words of the command line ask for: a command, and for each option its number, whether it is given or not.
#[derive(Clone, Copy, Debug, PartialEq, Eq)]
pub struct Request {
    /// What is to be done.
    pub command: Command,
    /// How many occurrences a rule may have that are listed, from 1 to 1,000,000; 100,000 where it is not given.
    pub most: u32,
    /// How many workers there are, from 1 to 64; 1 where it is not given.
    pub workers: u32,
    /// How many steps are made at most, from 0 to 100,000; 1,000 where it is not given.
    pub steps: u32,
    /// With what the draws of a run begin, any number of 64 bits; 0 where it is not given.
    pub seed: u64,
    /// The size of a model that is made, from 1 to 300; 10 where it is not given.
    pub size: u32,
    /// Whether occurrences are explained.
    pub explain: bool,
}

/// What these matches ask for, or nothing where the command is none that is built, or a number is not of its form or not
/// in its range.
#[tactic(auto, unfolding(crate::specs::Words::request_in))]
pub(crate) fn request_in(matches: &ArgMatches) -> Option<Request>
    ensures { result ≡ definition.request_in (rows_of (found_of matches.now)) }
{
    Some(Request {
        command: command_in(matches)?,
        most: small_number_in(matches, "most", MOST)?,
        workers: small_number_in(matches, "workers", WORKERS)?,
        steps: small_number_in(matches, "steps", STEPS)?,
        seed: number_in(matches, "seed", SEED)?,
        size: small_number_in(matches, "size", SIZE)?,
        explain: is_set(matches, "explain"),
    })
}

/// The command that is named.
fn command_in(matches: &ArgMatches) -> Option<Command>
    ensures { result ≡ definition.command_in (rows_of (found_of matches.now)) }
{
    command_of(text_of(matches, "command")?)
}

/// The number of the option with that name, or its default where it is not given.
fn number_in(matches: &ArgMatches, name: &str, numbers: Numbers) -> Option<u64>
    ensures { result ≡ definition.number_in (rows_of (found_of matches.now)) name.now numbers }
{
    match text_of(matches, name) {
        Some(text) => number_of(text, numbers),
        None => Some(numbers.default),
    }
}

/// The number of the option with that name, whose numbers have at most 32 bits.
fn small_number_in(matches: &ArgMatches, name: &str, numbers: Numbers) -> Option<u32>
    requires greatest { numbers.greatest < 2 ^ 32 }
    requires default { numbers.default ≤ numbers.greatest }
    ensures { result ≡ definition.number_in (rows_of (found_of matches.now)) name.now numbers }
{
    Some(number_in(matches, name, numbers)? as u32)
}

/// Whether the flag with that name is given.
fn is_set(matches: &ArgMatches, name: &str) -> bool
    ensures { result ≡ definition.is_set (rows_of (found_of matches.now)) name.now }
{
    match text_of(matches, name) {
        Some(text) => text == "true",
        None => false,
    }
}

/// The text of the command, the option or the flag with that name.
fn text_of<'a>(matches: &ArgMatches<'a>, name: &str) -> Option<&'a str>
    ensures { option_map (λ text. text.now) result ≡ first_of name.now (rows_of (found_of matches.now)) }
{
    matches.get_str(name)
}
