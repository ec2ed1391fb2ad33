/// The kind of a piece of a text.
#[derive(Clone, Copy, Debug, PartialEq, Eq)]
pub enum PieceKind {
    /// White space and line terminators.
    Space,
    /// `//` and the rest of the line.
    LineComment,
    /// From `/*` to `*/`.
    BlockComment,
    /// `<!--` or `-->` and the rest of the line, in a script.
    HtmlComment,
    /// `#!` and the rest of the first line.
    Hashbang,
    /// A name, a keyword or a number.
    Word,
    String,
    /// A part of a template: from a backtick or from the `}` after an expression, to a backtick or to `${`.
    Template,
    /// A regular expression without its flags.
    RegularExpression,
    /// Text between the tags of a JSX element.
    JsxText,
    /// A string in a JSX tag.
    JsxString,
    /// One byte of any other token.
    Punctuation,
}

/// A piece of a text.
#[derive(Clone, Copy, Debug, PartialEq, Eq)]
pub struct Piece {
    pub kind: PieceKind,
    /// Offset of the first byte, from zero.
    pub start: usize,
    /// Offset after the last byte, from zero.
    pub end: usize,
}
