//! Why a text has no source.

use deno_graph_base::text::Position;
use deno_graph_source::tree::ParseDiagnostic;
use modinfo_lexer::syntax_error::ReadError;
use std::alloc::{AllocError, AllocFailed};

/// The message of `Defect`.
pub const DEFECT: &str =
    "expected the text's own tree: this is a defect of modinfo, please report the text";

/// Why a text has no source.
#[derive(Debug, PartialEq, Eq, Drop)]
pub enum TextError {
    /// The text has a syntax error that makes its tree unclear, nests too deep, or is JSON.
    Syntax(ParseDiagnostic),
    /// The tree isn't that of the text: a defect of this library, of which the text has no fault. Line and
    /// character where that was found, counted from zero.
    Defect(Position),
    /// An allocation failed.
    OutOfMemory,
}

impl From<AllocError> for TextError {
    ghost use Rattle.std.specs.Prelude.{◌≡◌};
    ghost use Rattle.modinfo_source.specs.declared.error.TextError.TheVariants.{OutOfMemory};

    ghost from_gives = { λ error text_error. text_error ≡ OutOfMemory };

    fn from(_error: AllocError) -> TextError {
        TextError::OutOfMemory
    }
}

impl<T: Drop> From<AllocFailed<T>> for TextError {
    ghost use Rattle.std.specs.Prelude.{◌≡◌};
    ghost use Rattle.modinfo_source.specs.declared.error.TextError.TheVariants.{OutOfMemory};

    ghost from_gives = { λ error text_error. text_error ≡ OutOfMemory };

    fn from(_error: AllocFailed<T>) -> TextError {
        TextError::OutOfMemory
    }
}

/// Why a text has no tree that is its own.
#[derive(Clone, Copy, Debug, PartialEq, Eq)]
pub(crate) enum TreeError {
    /// The parser reads no tree.
    Unread(ReadError),
    /// The tree isn't that of the text, which is found at this offset, in bytes from zero.
    Defect(usize),
}

impl From<ReadError> for TreeError {
    fn from(error: ReadError) -> TreeError {
        TreeError::Unread(error)
    }
}

impl From<AllocError> for TreeError {
    fn from(_error: AllocError) -> TreeError {
        TreeError::Unread(ReadError::OutOfMemory)
    }
}

impl<T: Drop> From<AllocFailed<T>> for TreeError {
    fn from(_error: AllocFailed<T>) -> TreeError {
        TreeError::Unread(ReadError::OutOfMemory)
    }
}
