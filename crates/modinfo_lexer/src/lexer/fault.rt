//! Errors of tokens.

use crate::syntax_error::ReadError;

/// Why no token could be read. One byte, so that the results of the lexer's functions are small; the
/// message is made for the error that is returned.
#[derive(Clone, Copy, Debug, PartialEq, Eq)]
pub(super) enum Fault {
    Comment,
    String,
    Escape,
    Template,
    Number,
    Character,
    OutOfMemory,
}

impl Fault {
    /// Returns the error of a fault of what begins at an offset.
    #[cold]
    pub(super) fn error_at(self, at: usize) -> ReadError {
        let message = match self {
            Fault::Comment => "expected `*/` at the end of the comment",
            Fault::String => "expected a quote at the end of the string",
            Fault::Escape => "expected the digits of a character after `\\`",
            Fault::Number => "expected a number, and no name directly after it",
            Fault::Template => "expected a backtick at the end of the template",
            Fault::Character => "unexpected character",
            Fault::OutOfMemory => return ReadError::OutOfMemory,
        };
        ReadError::syntax(message, at)
    }
}
