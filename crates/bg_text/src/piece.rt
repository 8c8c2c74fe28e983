//! What stands in front of a text: a gap, a token or a refusal.
ghost use Rattle.std.specs.Prelude.{◌≡◌, ◌<◌, IsTrue, false, length, slice_index};
ghost use Rattle.std.specs.Char.{is_ascii_lowercase, is_ascii_uppercase};
ghost use Rattle.bg_text.specs.Pieces.{IsPiece, IsWithin, begins_otherwise};
ghost use Rattle.bg_text.specs.Pieces as pieces;

use crate::fault::BAD_BYTE;
use crate::number::number;
use crate::runs::{line_count, word_count};
use crate::spelling::{is_space, lower_kind, mark};
use crate::text::text;
use crate::token::TokenKind;

/// What stands in front of a text.
#[derive(Clone, Copy)]
pub(crate) enum Piece {
    /// White space or a comment of so many bytes.
    Gap(usize),
    /// A token of this kind of so many bytes.
    Token(TokenKind, usize),
    /// The code of a refusal, and how many bytes behind the first one its place is.
    Bad(u8, usize),
}

/// What stands in front. It takes at least one byte, and only bytes that are there.
pub(crate) fn piece_of(bytes: &[u8]) -> Piece
    requires { 0 < length bytes.now }
    ensures is { IsPiece bytes.now result }
    ensures within { IsWithin (length bytes.now) result }
{
    by_first_byte(bytes)
}

/// What stands in front, by its first byte.
fn by_first_byte(bytes: &[u8]) -> Piece
    requires { 0 < length bytes.now }
    ensures { IsPiece bytes.now result }
{
    let first = bytes[0];
    if is_space(first) {
        Piece::Gap(1)
    } else if first == b'#' {
        comment(bytes)
    } else if first == b'"' {
        text(bytes)
    } else if first.is_ascii_digit() {
        number(bytes)
    } else if first.is_ascii_lowercase() {
        lower_word(bytes)
    } else if first.is_ascii_uppercase() {
        upper_word(bytes)
    } else {
        symbol(bytes)
    }
}

/// The comment whose `#` stands in front. It ends before the next line feed.
fn comment(bytes: &[u8]) -> Piece
    requires some { 0 < length bytes.now }
    requires hash { slice_index bytes.now 0 ≡ 35 }
    ensures { IsPiece bytes.now result }
{
    let (_, behind) = bytes.split_at(1);
    Piece::Gap(1 + line_count(behind))
}

/// The word in front, which begins with a lower-case letter.
fn lower_word(bytes: &[u8]) -> Piece
    requires { IsTrue (is_ascii_lowercase (slice_index bytes.now 0)) }
    ensures { IsPiece bytes.now result }
{
    let (word, _) = bytes.split_at(word_count(bytes));
    Piece::Token(lower_kind(word), word.len())
}

/// The word in front, which begins with an upper-case letter.
fn upper_word(bytes: &[u8]) -> Piece
    requires { IsTrue (is_ascii_uppercase (slice_index bytes.now 0)) }
    ensures { IsPiece bytes.now result }
{
    Piece::Token(TokenKind::Upper, word_count(bytes))
}

/// The symbol in front, or the refusal of a byte that begins no token.
fn symbol(bytes: &[u8]) -> Piece
    requires some { 0 < length bytes.now }
    requires other { begins_otherwise (slice_index bytes.now 0) ≡ false }
    ensures { IsPiece bytes.now result }
{
    if begins_arrow(bytes) {
        return Piece::Token(TokenKind::Arrow, 3);
    }
    if begins_bars(bytes) {
        return Piece::Token(TokenKind::BarBar, 2);
    }
    match mark(bytes[0]) {
        Some(kind) => Piece::Token(kind, 1),
        None => Piece::Bad(BAD_BYTE, 0),
    }
}

/// Whether `-->` stands in front.
fn begins_arrow(bytes: &[u8]) -> bool
    ensures { result ≡ pieces.begins_arrow bytes.now }
{
    matches!(bytes, [b'-', b'-', b'>', ..])
}

/// Whether `||` stands in front.
fn begins_bars(bytes: &[u8]) -> bool
    ensures { result ≡ pieces.begins_bars bytes.now }
{
    matches!(bytes, [b'|', b'|', ..])
}
