/// What a parser has decided about a byte, where the bytes before don't decide.
#[derive(Clone, Copy, Debug, PartialEq, Eq)]
pub enum ChoiceKind {
    /// A slash begins a regular expression.
    RegularExpression,
    /// A `<` begins a JSX element in an expression.
    JsxElement,
    /// `<!--` or `-->` begins a comment, as in a script.
    HtmlComment,
}

/// A decision of a parser.
#[derive(Clone, Copy, Debug, PartialEq, Eq)]
pub struct Choice {
    pub kind: ChoiceKind,
    /// Offset of the byte that the decision is about, from zero.
    pub offset: usize,
}
