//! How many bytes in front pass a test.
ghost use Rattle.std.specs.Prelude.{◌≡◌, ◌≤◌, length};
ghost use Rattle.std.specs.List.{prefix_len};
ghost use Rattle.std.specs.Char.{is_ascii_digit};
ghost use Rattle.bg_text.specs.Spelling as spelling;
ghost use Rattle.bg_text.specs.Tokens as definition;

use crate::spelling::{is_inside, is_text_byte, is_word_byte};

/// How many bytes of a word stand in front.
pub(crate) fn word_count(bytes: &[u8]) -> usize
    ensures value { result ≡ prefix_len spelling.is_word_byte bytes.now }
    ensures within { result ≤ length bytes.now }
{
    bytes.iter().take_while(|byte| is_word_byte(**byte)).count()
}

/// How many digits stand in front.
pub(crate) fn digit_count(bytes: &[u8]) -> usize
    ensures value { result ≡ prefix_len is_ascii_digit bytes.now }
    ensures within { result ≤ length bytes.now }
{
    bytes
        .iter()
        .take_while(|byte| byte.is_ascii_digit())
        .count()
}

/// How many bytes stand before the next line feed.
pub(crate) fn line_count(bytes: &[u8]) -> usize
    ensures value { result ≡ prefix_len definition.is_not_line_feed bytes.now }
    ensures within { result ≤ length bytes.now }
{
    bytes.iter().take_while(|byte| **byte != b'\n').count()
}

/// How many bytes stand before the next quote or line feed.
pub(crate) fn inside_count(bytes: &[u8]) -> usize
    ensures value { result ≡ prefix_len definition.is_inside bytes.now }
    ensures within { result ≤ length bytes.now }
{
    bytes.iter().take_while(|byte| is_inside(**byte)).count()
}

/// How many bytes stand in front that a text may hold.
pub(crate) fn text_byte_count(bytes: &[u8]) -> usize
    ensures value { result ≡ prefix_len spelling.is_text_byte bytes.now }
    ensures within { result ≤ length bytes.now }
{
    bytes.iter().take_while(|byte| is_text_byte(**byte)).count()
}
