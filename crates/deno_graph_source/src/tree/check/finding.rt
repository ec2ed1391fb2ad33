ghost use Rattle.std.specs.Prelude.{◌≡◌, [], ◌∷◌, ◌++◌, reverse, IfOk};

use crate::tree::comments::{Comments, DependencyComment};
use crate::tree::fault::SourceFault;
use crate::tree::fault_place::{FaultPlace, NodePart, SourceFaultPlace};
use deno_graph_base::values::Items;
use std::alloc::AllocError;

/// A fault of a source and the part of the source that has it. Comments are held by reference: only
/// a caller that needs their places searches for them.
#[derive(Drop)]
pub(crate) enum Finding<'a> {
    /// A fault of the program's own range.
    Program(SourceFault),
    Node(NodeFinding),
    Comment(CommentFinding<'a>),
    /// Two comments that overlap.
    Overlap(&'a DependencyComment, &'a DependencyComment),
}

/// A fault of a part of a node.
#[derive(Drop)]
pub(crate) struct PartFinding {
    pub fault: SourceFault,
    pub part: NodePart,
}

/// A fault of a part of a node, and the path to the node from its end: the node's index among its
/// parent's children, then the parent's index, up to the index of an item of the body.
#[derive(Drop)]
pub(crate) struct NodeFinding {
    pub at: PartFinding,
    pub reversed_path: Vec<usize>,
}

/// A fault of a comment.
#[derive(Drop)]
pub(crate) struct CommentFinding<'a> {
    pub fault: SourceFault,
    pub comment: &'a DependencyComment,
}

impl NodeFinding {
    /// Adds the index of the node above, or of an item, to the path. Fails only if an allocation
    /// fails.
    pub(crate) fn below(mut self, number: usize) -> Result<NodeFinding, AllocError>
        ensures at { IfOk result (λ found. found.at ≡ self.at) }
        ensures reversed_path { IfOk result (λ found.
            found.reversed_path.items ≡ self.reversed_path.items ++ number ∷ []) }
    {
        self.reversed_path.push(number)?;
        Ok(self)
    }
}

impl Finding<'_> {
    ghost use Rattle.deno_graph_source.specs.internal.Finding.{finding_fault, AreFiled, IsPlaceOf};

    /// Returns the fault without its place.
    pub(crate) fn fault(self) -> SourceFault
        ensures { result ≡ finding_fault self.entry }
    {
        match self {
            Finding::Program(fault) => fault,
            Finding::Node(found) => found.at.fault,
            Finding::Comment(found) => found.fault,
            Finding::Overlap(_, _) => SourceFault::CommentsOverlap,
        }
    }

    /// Returns the fault with its place. `comments` are those of the source.
    pub(crate) fn placed(self, comments: &Comments) -> SourceFaultPlace
        requires { AreFiled comments.now self }
        ensures fault { result.fault ≡ finding_fault self.entry }
        ensures place { IsPlaceOf comments.now self.entry result.place }
    {
        match self {
            Finding::Program(fault) => SourceFaultPlace {
                fault,
                place: FaultPlace::Program,
            },
            Finding::Node(found) => found.placed(),
            Finding::Comment(found) => SourceFaultPlace {
                fault: found.fault,
                place: FaultPlace::Comment(comments.place_of(found.comment)),
            },
            Finding::Overlap(one, other) => SourceFaultPlace {
                fault: SourceFault::CommentsOverlap,
                place: FaultPlace::Comments(comments.place_of(one), comments.place_of(other)),
            },
        }
    }
}

impl NodeFinding {
    /// Returns the fault with its place.
    fn placed(self) -> SourceFaultPlace
        ensures fault { result.fault ≡ self.at.fault }
        ensures place { result.place ≡ FaultPlace.Node (reverse self.reversed_path.items) self.at.part }
    {
        let NodeFinding {
            at,
            mut reversed_path,
        } = self;
        reversed_path.reverse();
        SourceFaultPlace {
            fault: at.fault,
            place: FaultPlace::Node {
                path: Items::from_vec(reversed_path),
                part: at.part,
            },
        }
    }
}
