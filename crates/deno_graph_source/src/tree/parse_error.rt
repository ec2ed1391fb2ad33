//! The errors of a parser.

ghost use Rattle.std.specs.Prelude.{◌≡◌};

use deno_graph_base::text::Position;
use deno_graph_base::values::{Text, TryClone};
use std::alloc::{AllocError, AllocFailed, Global};

/// A syntax error.
#[derive(Debug, PartialEq, Eq, Drop)]
pub struct ParseDiagnostic {
    /// Message of the parser.
    pub message: Text,
    /// Line and character of the error, counted from zero.
    pub position: Position,
}

impl TryClone for ParseDiagnostic {
    fn try_clone(&self, alloc: Global) -> Result<ParseDiagnostic, AllocError> {
        Ok(ParseDiagnostic {
            message: self.message.try_clone(alloc)?,
            position: self.position,
        })
    }
}

/// An error of a parser.
#[derive(Debug, PartialEq, Eq, Drop)]
pub enum ParseError {
    /// The text is no module.
    Diagnostic(ParseDiagnostic),
    /// An allocation failed.
    OutOfMemory,
}

impl TryClone for ParseError {
    fn try_clone(&self, alloc: Global) -> Result<ParseError, AllocError> {
        match self {
            ParseError::Diagnostic(diagnostic) => {
                Ok(ParseError::Diagnostic(diagnostic.try_clone(alloc)?))
            }
            ParseError::OutOfMemory => Ok(ParseError::OutOfMemory),
        }
    }
}

impl From<AllocError> for ParseError {
    ghost use Rattle.deno_graph_source.specs.declared.tree.parse_error.ParseError.TheVariants.{OutOfMemory};

    ghost from_gives = { λ error parse_error. parse_error ≡ OutOfMemory };

    fn from(_error: AllocError) -> ParseError {
        ParseError::OutOfMemory
    }
}

impl<T: Drop> From<AllocFailed<T>> for ParseError {
    ghost use Rattle.deno_graph_source.specs.declared.tree.parse_error.ParseError.TheVariants.{OutOfMemory};

    ghost from_gives = { λ error parse_error. parse_error ≡ OutOfMemory };

    fn from(_error: AllocFailed<T>) -> ParseError {
        ParseError::OutOfMemory
    }
}
