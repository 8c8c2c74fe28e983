//! Keywords, marks and the bytes of words.
ghost use Rattle.std.specs.Prelude.{◌≡◌, ◌==◌, not};
ghost use Rattle.bg_text.specs.Spelling as spelling;
ghost use Rattle.bg_text.specs.Tokens as definition;

use crate::token::TokenKind;

/// Whether the byte may stand in a word behind its first letter.
pub(crate) fn is_word_byte(byte: u8) -> bool
    ensures { result ≡ spelling.is_word_byte byte }
{
    byte.is_ascii_alphanumeric() || byte == b'_' || byte == b'\''
}

/// Whether the byte may stand between quotes.
pub(crate) fn is_text_byte(byte: u8) -> bool
    ensures { result ≡ spelling.is_text_byte byte }
{
    b' ' <= byte && byte <= b'~' && byte != b'"'
}

/// Whether the byte is neither a quote nor a line feed.
pub(crate) fn is_inside(byte: u8) -> bool
    ensures { result ≡ definition.is_inside byte }
{
    byte != b'"' && byte != b'\n'
}

/// Whether the byte is white space.
pub(crate) fn is_space(byte: u8) -> bool
    ensures { result ≡ spelling.is_space byte }
{
    byte == b' ' || byte == b'\t' || byte == b'\r' || byte == b'\n'
}

/// The kind of a word that begins with a lower-case letter.
#[tactic(auto, unfolding(crate::specs::Spelling::lower_kind))]
pub(crate) fn lower_kind(word: &[u8]) -> TokenKind
    ensures { result ≡ spelling.lower_kind word.now }
{
    if is_same(word, b"atomic") {
        TokenKind::KwAtomic
    } else if is_same(word, b"begin") {
        TokenKind::KwBegin
    } else if is_same(word, b"big") {
        TokenKind::KwBig
    } else if is_same(word, b"brs") {
        TokenKind::KwBrs
    } else if is_same(word, b"ctrl") {
        TokenKind::KwCtrl
    } else if is_same(word, b"ctx") {
        TokenKind::KwCtx
    } else if is_same(word, b"end") {
        TokenKind::KwEnd
    } else if is_same(word, b"fun") {
        TokenKind::KwFun
    } else if is_same(word, b"id") {
        TokenKind::KwId
    } else if is_same(word, b"if") {
        TokenKind::KwIf
    } else {
        later_kind(word)
    }
}

/// The kind of such a word that is none of the first ten keywords.
#[tactic(auto, unfolding(crate::specs::Spelling::later_kind))]
fn later_kind(word: &[u8]) -> TokenKind
    ensures { result ≡ spelling.later_kind word.now }
{
    if is_same(word, b"in") {
        TokenKind::KwIn
    } else if is_same(word, b"init") {
        TokenKind::KwInit
    } else if is_same(word, b"int") {
        TokenKind::KwInt
    } else if is_same(word, b"merge") {
        TokenKind::KwMerge
    } else if is_same(word, b"param") {
        TokenKind::KwParam
    } else if is_same(word, b"preds") {
        TokenKind::KwPreds
    } else if is_same(word, b"react") {
        TokenKind::KwReact
    } else if is_same(word, b"rules") {
        TokenKind::KwRules
    } else if is_same(word, b"string") {
        TokenKind::KwString
    } else {
        TokenKind::Lower
    }
}

/// Whether the two have the same bytes.
fn is_same(word: &[u8], other: &[u8]) -> bool
    ensures { result ≡ spelling.same word.now other.now }
{
    word == other
}

/// The kind of a run of digits.
pub(crate) fn number_kind(digits: &[u8]) -> TokenKind
    ensures { result ≡ spelling.number_kind digits.now }
{
    match digits {
        [b'0'] => TokenKind::Zero,
        [b'1'] => TokenKind::One,
        _ => TokenKind::Num,
    }
}

/// The kind of the symbol that is this byte alone.
#[tactic(auto, unfolding(crate::specs::Spelling::mark))]
pub(crate) fn mark(byte: u8) -> Option<TokenKind>
    ensures { result ≡ spelling.mark byte }
{
    match byte {
        b'|' => Some(TokenKind::Bar),
        b'+' => Some(TokenKind::Plus),
        b'-' => Some(TokenKind::Minus),
        b'*' => Some(TokenKind::Star),
        b'/' => Some(TokenKind::Slash),
        b'.' => Some(TokenKind::Dot),
        b',' => Some(TokenKind::Comma),
        b';' => Some(TokenKind::Semicolon),
        b':' => Some(TokenKind::Colon),
        b'=' => Some(TokenKind::Equals),
        b'{' => Some(TokenKind::OpenBrace),
        b'}' => Some(TokenKind::CloseBrace),
        b'(' => Some(TokenKind::OpenRound),
        b')' => Some(TokenKind::CloseRound),
        b'[' => Some(TokenKind::OpenSquare),
        b']' => Some(TokenKind::CloseSquare),
        b'@' => Some(TokenKind::At),
        b'!' => Some(TokenKind::Bang),
        _ => None,
    }
}
