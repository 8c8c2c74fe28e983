//! The words of the command line.
ghost use Rattle.std.specs.Prelude.{◌≡◌, ◌≢◌, [], IfOk, OnOk, IsErrOf, None, Some, map, string_bytes};
ghost use Rattle.clap.specs.Words.{fault_of, found_of, kind_of, matches_of, rows_of};
ghost use Rattle.bg_words.specs.Options.{the_app};
ghost use Rattle.bg_words.specs.Words.{asked, IsInRange};

use crate::asking::{Request, request_in};
use crate::fault::WordsFault;
use crate::options::program;
use clap::error::ErrorKind;
use clap::{ArgMatches, Error};
use std::alloc::Global;

/// What the words ask for, of which the first is the name of the program.
///
/// One word behind it is the command; options stand before it and behind it, as `--most 5` or as `--most=5`, and `--`
/// ends them. Refused are no words, no command or two, a command that is not built, an option that is not there, is
/// abbreviated or is given twice, a flag with a value, and a number that is not one to twenty digits or not in the range of
/// its option. The number of an option that the command does not use is judged too, and has no
/// other effect. Costs time and memory in proportion to the words.
pub fn request(alloc: Global, words: &[String]) -> Result<Request, WordsFault>
    ensures given { IfOk result (λ request. asked (map string_bytes words.now) ≡ Some request) }
    ensures refused { IsErrOf result WordsFault.Refused → asked (map string_bytes words.now) ≡ None }
    ensures in_range { IfOk result (λ request. IsInRange request) }
{
    let matches = matches_in(alloc, words)?;
    request_in(&matches).ok_or(WordsFault::Refused)
}

/// How clap reads the words.
fn matches_in<'a>(alloc: Global, words: &'a [String]) -> Result<ArgMatches<'a>, WordsFault>
    ensures taken { OnOk result (fault_of the_app (map string_bytes words.entry.now) ≡ []) }
    ensures matches { IfOk result (λ matches. rows_of (found_of matches) ≡ matches_of the_app (map string_bytes words.entry.now)) }
    ensures refused { IsErrOf result WordsFault.Refused → fault_of the_app (map string_bytes words.entry.now) ≢ [] }
{
    let program = program(alloc)?;
    match program.try_get_matches_from(words) {
        Ok(matches) => Ok(matches),
        Err(error) => Err(words_fault(&error)),
    }
}

/// What an error of clap says of the words.
fn words_fault(error: &Error) -> WordsFault
    ensures refused { result ≡ WordsFault.Refused → kind_of error.now ≢ ErrorKind.OutOfMemory }
    ensures memory { result ≡ WordsFault.OutOfMemory → kind_of error.now ≡ ErrorKind.OutOfMemory }
{
    match error.kind() {
        ErrorKind::OutOfMemory => WordsFault::OutOfMemory,
        _ => WordsFault::Refused,
    }
}
