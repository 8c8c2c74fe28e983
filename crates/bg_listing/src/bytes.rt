//! Runs of bytes and fixed bytes.
ghost use Rattle.std.specs.Prelude.{◌≡◌, ◌++◌, IsTrue};
ghost use Rattle.std.specs.List.{prefix_len, list_all};
ghost use Rattle.std.specs.Char.{is_ascii_digit};
ghost use Rattle.bg_base.specs.Spelling as spelling;
ghost use Rattle.bg_listing.specs.Combinators.{after};
ghost use Rattle.bg_listing.specs.Answers.{IsFrontRun, GivesOrFails};

use crate::fault::NotThere;
use bg_base::{is_text_byte, is_word_byte};

/// The bytes behind `word`, where it stands in front.
pub(crate) fn skip<'a>(bytes: &'a [u8], word: &[u8]) -> Result<&'a [u8], NotThere>
    ensures { GivesOrFails (λ rest. rest.now) result (after word.now bytes.now) }
{
    match bytes.strip_prefix(word) {
        Some(rest) => Ok(rest),
        None => Err(NotThere),
    }
}

/// The digits in front, and the bytes behind them.
#[tactic(auto, using(crate::proofs::Combinators::run_laws))]
pub(crate) fn digits(bytes: &[u8]) -> (&[u8], &[u8])
    ensures { IsFrontRun is_ascii_digit bytes.now result.0.now result.1.now }
{
    bytes.split_at(digit_count(bytes))
}

/// The letters, digits, `_` and `'` in front, and the bytes behind them.
#[tactic(auto, using(crate::proofs::Combinators::run_laws))]
pub(crate) fn word_bytes(bytes: &[u8]) -> (&[u8], &[u8])
    ensures { IsFrontRun spelling.is_word_byte bytes.now result.0.now result.1.now }
{
    bytes.split_at(word_byte_count(bytes))
}

/// The bytes of a text in front, and the bytes behind them.
#[tactic(auto, using(crate::proofs::Combinators::run_laws))]
pub(crate) fn text_bytes(bytes: &[u8]) -> (&[u8], &[u8])
    ensures { IsFrontRun spelling.is_text_byte bytes.now result.0.now result.1.now }
{
    bytes.split_at(text_byte_count(bytes))
}

fn digit_count(bytes: &[u8]) -> usize
    ensures { result ≡ prefix_len is_ascii_digit bytes.now }
{
    bytes
        .iter()
        .take_while(|byte| byte.is_ascii_digit())
        .count()
}

fn word_byte_count(bytes: &[u8]) -> usize
    ensures { result ≡ prefix_len spelling.is_word_byte bytes.now }
{
    bytes.iter().take_while(|byte| is_word_byte(**byte)).count()
}

fn text_byte_count(bytes: &[u8]) -> usize
    ensures { result ≡ prefix_len spelling.is_text_byte bytes.now }
{
    bytes.iter().take_while(|byte| is_text_byte(**byte)).count()
}
