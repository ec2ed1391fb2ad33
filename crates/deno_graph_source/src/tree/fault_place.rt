ghost use Rattle.std.specs.Prelude.{◌≡◌, IfOk};

use crate::tree::comments::CommentPlace;
use crate::tree::fault::SourceFault;
use deno_graph_base::values::{Items, TryClone};
use std::alloc::{AllocError, Global};

/// A fault of a source with its place.
#[derive(Debug, PartialEq, Eq, Drop)]
pub struct SourceFaultPlace {
    pub fault: SourceFault,
    pub place: FaultPlace,
}

impl SourceFaultPlace {
    ghost use Rattle.std.specs.Prelude.{ℕ, List};
    ghost use Rattle.deno_graph_source.specs.Comments.{FiledComments};
    ghost use Rattle.deno_graph_source.specs.FaultPlace.{HasFaultAt};
    ghost use Rattle.deno_graph_source.specs.Source.{HasFault};
    ghost use Rattle.deno_graph_source.specs.declared.tree.node.Program.{Program};

    /// Ensures that a source with this fault at this place has this fault. This call does nothing: a
    /// caller learns the law from the contract.
    pub fn law_of_places(&self)
        ensures { (text : List ℕ) (program : Program) (comments : FiledComments)
            → HasFaultAt text program comments self.now.fault self.now.place
            → HasFault text program comments self.now.fault }
    {}
}

impl TryClone for SourceFaultPlace {
    fn try_clone(&self, alloc: Global) -> Result<SourceFaultPlace, AllocError> {
        Ok(SourceFaultPlace {
            fault: copied(&self.fault),
            place: self.place.try_clone(alloc)?,
        })
    }
}

/// Returns a copy of `fault`.
fn copied(fault: &SourceFault) -> SourceFault
    ensures { result ≡ fault.now }
{
    match fault {
        SourceFault::RangeReversed => SourceFault::RangeReversed,
        SourceFault::RangeOutside => SourceFault::RangeOutside,
        SourceFault::RangeOffBoundary => SourceFault::RangeOffBoundary,
        SourceFault::CommentText => SourceFault::CommentText,
        SourceFault::CommentsOverlap => SourceFault::CommentsOverlap,
        SourceFault::Shape => SourceFault::Shape,
        SourceFault::OutOfMemory => SourceFault::OutOfMemory,
    }
}

/// The place of a fault: the part of a source that has it.
#[derive(Debug, PartialEq, Eq, Drop)]
pub enum FaultPlace {
    /// The program's own range.
    Program,
    /// A part of a node. `path` leads to the node: the first number is the index of an item of the
    /// body, and each further number the index of a child. Indices count from zero.
    Node { path: Items<usize>, part: NodePart },
    /// A comment, by the place where it is filed.
    Comment(CommentPlace),
    /// Two unequal comments that share a byte of the text, by the places where they are filed.
    Comments(CommentPlace, CommentPlace),
}

impl TryClone for FaultPlace {
    fn try_clone(&self, alloc: Global) -> Result<FaultPlace, AllocError> {
        Ok(match self {
            FaultPlace::Program => FaultPlace::Program,
            FaultPlace::Node { path, part } => FaultPlace::Node {
                path: try_clone_path(alloc, path)?,
                part: *part,
            },
            FaultPlace::Comment(place) => FaultPlace::Comment(*place),
            FaultPlace::Comments(first, second) => FaultPlace::Comments(*first, *second),
        })
    }
}

/// Copies a path. Fails only if an allocation fails.
fn try_clone_path(alloc: Global, path: &Items<usize>) -> Result<Items<usize>, AllocError>
    ensures { IfOk result (λ copy. copy ≡ path.now) }
{
    let mut copy = Items::with_capacity(alloc, path.len())?;
    for number in path.as_slice() {
        copy.push(*number)?;
    }
    Ok(copy)
}

/// The part of a node that has a fault.
#[derive(Clone, Copy, Debug, PartialEq, Eq)]
pub enum NodePart {
    /// The node's own range.
    Range,
    /// The range of the node's string literal.
    Literal,
    /// The range of the node's argument with this index, from zero.
    Argument(usize),
    /// The node's children, which break this rule.
    Children(ShapeRule),
}

/// A rule on the children of a node.
#[derive(Clone, Copy, Debug, PartialEq, Eq)]
pub enum ShapeRule {
    /// A node with a `with` clause has the clause's object literal as its first child.
    WithClause,
    /// A template has one quasi more than children.
    Template,
    /// A binary expression has two children.
    Binary,
    /// A property has its value as its last child.
    KeyValue,
    /// A call has as children its callee, if that is an expression, and its arguments.
    Call,
}
