/// The kind of a token. Punctuation comes first, then literals, then names: words without a meaning
/// of their own, words with one in some places, and reserved words.
#[derive(Clone, Copy, Debug, PartialEq, Eq)]
pub enum TokenKind {
    EndOfText,
    /// `#!` and the rest of the first line.
    Hashbang,
    BraceOpen,
    BraceClose,
    ParenOpen,
    ParenClose,
    BracketOpen,
    BracketClose,
    Dot,
    DotDotDot,
    /// `?.`
    QuestionDot,
    Semicolon,
    Comma,
    Colon,
    Question,
    Arrow,
    At,
    Bang,
    Tilde,
    PlusPlus,
    MinusMinus,
    Equal,
    /// `/=`
    SlashEqual,
    /// Every other assignment operator, as `+=`.
    CompoundEqual,
    Plus,
    Minus,
    Star,
    StarStar,
    Slash,
    Percent,
    Less,
    Greater,
    ShiftLeft,
    /// Every operator of more than one byte that begins with `>`, as `>>`, but for assignments.
    GreaterMore,
    LessEqual,
    /// `==`, `!=`, `===` and `!==`.
    Equality,
    Ampersand,
    Bar,
    Caret,
    AndAnd,
    OrOr,
    QuestionQuestion,
    JsxText,
    String,
    Number,
    RegularExpression,
    /// A template without substitutions.
    Template,
    /// From a template's start to its first `${`.
    TemplateHead,
    /// From `}` to the next `${`.
    TemplateMiddle,
    /// From `}` to a template's end.
    TemplateTail,
    /// `#` and a name.
    PrivateName,
    Identifier,
    Abstract,
    Accessor,
    As,
    Assert,
    Asserts,
    Async,
    Await,
    Declare,
    Defer,
    From,
    Get,
    Global,
    Implements,
    Infer,
    Interface,
    Is,
    Keyof,
    Let,
    Meta,
    Module,
    Namespace,
    Of,
    Out,
    Override,
    Package,
    Private,
    Protected,
    Public,
    Readonly,
    Require,
    Satisfies,
    Set,
    Source,
    Static,
    Target,
    Type,
    Unique,
    Using,
    Yield,
    Break,
    Case,
    Catch,
    Class,
    Const,
    Continue,
    Debugger,
    Default,
    Delete,
    Do,
    Else,
    Enum,
    Export,
    Extends,
    False,
    Finally,
    For,
    Function,
    If,
    Import,
    In,
    Instanceof,
    New,
    Null,
    Return,
    Super,
    Switch,
    This,
    Throw,
    True,
    Try,
    Typeof,
    Var,
    Void,
    While,
    With,
}

impl TokenKind {
    /// Returns whether this is a name that a variable may have in some text: an identifier, or a word
    /// that is reserved nowhere or in some places alone.
    #[inline(always)]
    pub fn is_identifier(self) -> bool {
        let number = self as u8;
        number >= TokenKind::Identifier as u8 && number <= TokenKind::Yield as u8
    }

    /// Returns whether this is a name, which a property may have: an identifier or any word.
    #[inline(always)]
    pub fn is_name(self) -> bool {
        self as u8 >= TokenKind::Identifier as u8
    }

    /// Returns whether this is an assignment operator.
    #[inline(always)]
    pub fn is_assignment(self) -> bool {
        let number = self as u8;
        number >= TokenKind::Equal as u8 && number <= TokenKind::CompoundEqual as u8
    }

    /// Returns whether this is a binary operator by its spelling, as also a sign, the `*` of
    /// `import *` and the `<` before type parameters are.
    #[inline(always)]
    pub fn is_binary_operator(self) -> bool {
        let number = self as u8;
        number >= TokenKind::Plus as u8 && number <= TokenKind::QuestionQuestion as u8
    }
}

/// A token of a text.
#[derive(Clone, Copy, Debug, PartialEq, Eq)]
pub struct Token {
    pub kind: TokenKind,
    /// Whether a line ends between the token before and this one.
    pub is_after_line_end: bool,
    /// Whether the token is a name or a part of a template with an escape.
    pub has_escape: bool,
    /// Offset of the first byte, from zero.
    pub start: usize,
    /// Offset after the last byte, from zero.
    pub end: usize,
}
