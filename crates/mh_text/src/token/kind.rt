//! `TokenKind`.

/// The kinds of tokens.
#[derive(Clone, Copy, PartialEq, Eq)]
pub enum TokenKind {
    OpenBrace,
    CloseBrace,
    OpenParenthesis,
    CloseParenthesis,
    /// A colon, a letter, and letters and digits.
    Keyword,
    /// Letters.
    Word,
    /// Digits, perhaps behind a minus sign.
    Integer,
    /// Bytes between `"`, which stand for themselves.
    Text,
    /// Bytes between `'`, in which `=` and two hexadecimal digits stand for one byte.
    Quoted,
}
