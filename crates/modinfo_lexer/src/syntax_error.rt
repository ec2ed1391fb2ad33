ghost use Rattle.std.specs.Prelude.{◌≡◌};

use std::alloc::{AllocError, AllocFailed};

/// What is wrong with a text, and where.
#[derive(Clone, Copy, Debug, PartialEq, Eq)]
pub struct SyntaxError {
    /// One sentence, in JavaScript's words.
    pub message: &'static str,
    /// Offset of the error, in bytes from zero.
    pub offset: usize,
}

/// An error of reading a text.
#[derive(Clone, Copy, Debug, PartialEq, Eq)]
pub enum ReadError {
    /// The text isn't JavaScript or TypeScript.
    Syntax(SyntaxError),
    /// An allocation failed.
    OutOfMemory,
}

impl ReadError {
    /// Returns the syntax error with this message at an offset.
    pub fn syntax(message: &'static str, offset: usize) -> ReadError {
        ReadError::Syntax(SyntaxError { message, offset })
    }
}

impl From<AllocError> for ReadError {
    ghost use Rattle.modinfo_lexer.specs.declared.syntax_error.ReadError.TheVariants.{OutOfMemory};

    ghost from_gives = { λ error read_error. read_error ≡ OutOfMemory };

    fn from(_error: AllocError) -> ReadError {
        ReadError::OutOfMemory
    }
}

impl<T: Drop> From<AllocFailed<T>> for ReadError {
    ghost use Rattle.modinfo_lexer.specs.declared.syntax_error.ReadError.TheVariants.{OutOfMemory};

    ghost from_gives = { λ error read_error. read_error ≡ OutOfMemory };

    fn from(_error: AllocFailed<T>) -> ReadError {
        ReadError::OutOfMemory
    }
}
