//! Why a range of a text isn't that of a comment.

use std::alloc::AllocError;

/// Why a text has no comment at a range.
#[derive(Debug, PartialEq, Eq, Drop)]
pub enum CommentError {
    /// The text doesn't have the range.
    Range,
    /// Neither `//` nor `/*` is at the start of the range.
    Start,
    /// A line comment starts at the range, and the range doesn't end at the end of the line.
    LineEnd,
    /// A block comment starts at the range, and the range doesn't end at the first `*/`.
    BlockEnd,
    OutOfMemory,
}

impl From<AllocError> for CommentError {
    ghost use Rattle.std.specs.Prelude.{◌≡◌};
    ghost use Rattle.modinfo_estree.specs.declared.comment_error.CommentError.TheVariants.{OutOfMemory};

    ghost from_gives = { λ _ error. error ≡ OutOfMemory };

    fn from(_error: AllocError) -> CommentError {
        CommentError::OutOfMemory
    }
}
