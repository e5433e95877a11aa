//! The words in which the notation of tokens is defined.

/// What a token is.
#[derive(Clone, Copy, Debug, PartialEq, Eq)]
pub enum Kind {
    /// `<`.
    Less,
    /// `>`.
    Greater,
    /// `=`.
    Equal,
    /// `{`.
    OpenBrace,
    /// `}`.
    CloseBrace,
    /// `(`.
    OpenParen,
    /// `)`.
    CloseParen,
    /// `[`.
    OpenBracket,
    /// `]`.
    CloseBracket,
    /// `/`.
    Slash,
    /// `:`.
    Colon,
    /// `.`, where it belongs to no Word.
    Dot,
    /// `->`.
    Arrow,
    /// A longest run of plain characters.
    Word,
}

/// What stands at the front of some bytes, and how many bytes it has.
#[derive(Clone, Copy, Debug, PartialEq, Eq)]
pub enum Lookahead {
    /// White space, or a comment.
    Blank(usize),
    /// A token.
    Piece(Kind, usize),
    /// A character that is refused.
    Control,
}
