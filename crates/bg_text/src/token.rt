//! Tokens and their kinds.

/// The kind of a token, by its spelling.
#[derive(Clone, Copy, Debug, PartialEq, Eq)]
pub enum TokenKind {
    /// A lower-case letter, then letters, digits, `_` and `'`; not a keyword.
    Lower,
    /// An upper-case letter, then letters, digits, `_` and `'`.
    Upper,
    /// The digit `0` alone.
    Zero,
    /// The digit `1` alone.
    One,
    /// Any other run of digits.
    Num,
    /// Printable ASCII characters other than `"`, between quotes.
    Text,
    KwAtomic,
    KwBegin,
    KwBig,
    KwBrs,
    KwCtrl,
    KwCtx,
    KwEnd,
    KwFun,
    KwId,
    KwIf,
    KwIn,
    KwInit,
    KwInt,
    KwMerge,
    KwParam,
    KwPreds,
    KwReact,
    KwRules,
    KwString,
    /// `-->`
    Arrow,
    /// `||`
    BarBar,
    /// `|`
    Bar,
    /// `+`
    Plus,
    /// `-`
    Minus,
    /// `*`
    Star,
    /// `/`
    Slash,
    /// `.`
    Dot,
    /// `,`
    Comma,
    /// `;`
    Semicolon,
    /// `:`
    Colon,
    /// `=`
    Equals,
    /// `{`
    OpenBrace,
    /// `}`
    CloseBrace,
    /// `(`
    OpenRound,
    /// `)`
    CloseRound,
    /// `[`
    OpenSquare,
    /// `]`
    CloseSquare,
    /// `@`
    At,
    /// `!`
    Bang,
}

/// A token: its kind, and its span in bytes from the beginning of the text. The byte at `end` is the first one
/// behind it.
#[derive(Clone, Copy, Debug, PartialEq, Eq)]
pub struct Token {
    pub kind: TokenKind,
    pub start: u32,
    pub end: u32,
}
