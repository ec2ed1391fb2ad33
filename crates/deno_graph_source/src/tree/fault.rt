ghost use Rattle.std.specs.Prelude.{◌≡◌};
ghost use Rattle.deno_graph_source.specs.FaultName.{fault_name};

use std::alloc::{AllocError, AllocFailed};
use std::error::Error;
use std::fmt;

/// A fault of a source, which is a text with the tree and the comments that a parser made of it.
/// Displayed by its name.
#[derive(Debug, PartialEq, Eq, Drop)]
pub enum SourceFault {
    /// A range starts after its end.
    RangeReversed,
    /// A range starts or ends after the end of the text.
    RangeOutside,
    /// A range starts or ends inside a character.
    RangeOffBoundary,
    /// The text does not have the comment at the comment's range.
    CommentText,
    /// Two unequal comments share a byte of the text.
    CommentsOverlap,
    /// A node does not have the children that its kind needs.
    Shape,
    /// Memory ran out while the source was checked.
    OutOfMemory,
}

impl SourceFault {
    /// Returns the printed name of the fault.
    pub fn name(&self) -> &'static str
        ensures { result.now ≡ fault_name self.now }
    {
        match self {
            SourceFault::RangeReversed => "RangeReversed",
            SourceFault::RangeOutside => "RangeOutside",
            SourceFault::RangeOffBoundary => "RangeOffBoundary",
            SourceFault::CommentText => "CommentText",
            SourceFault::CommentsOverlap => "CommentsOverlap",
            SourceFault::Shape => "Shape",
            SourceFault::OutOfMemory => "OutOfMemory",
        }
    }
}

impl fmt::Display for SourceFault {
    fn fmt<W: fmt::Write>(&self, f: &mut fmt::Formatter<W>) -> fmt::Result {
        f.write_str(self.name())
    }
}

impl Error for SourceFault {}

impl From<AllocError> for SourceFault {
    ghost use Rattle.deno_graph_source.specs.declared.tree.fault.SourceFault.TheVariants.{OutOfMemory};

    ghost from_gives = { λ error fault. fault ≡ OutOfMemory };

    fn from(_error: AllocError) -> SourceFault {
        SourceFault::OutOfMemory
    }
}

impl<T: Drop> From<AllocFailed<T>> for SourceFault {
    ghost use Rattle.deno_graph_source.specs.declared.tree.fault.SourceFault.TheVariants.{OutOfMemory};

    ghost from_gives = { λ error fault. fault ≡ OutOfMemory };

    fn from(_error: AllocFailed<T>) -> SourceFault {
        SourceFault::OutOfMemory
    }
}
