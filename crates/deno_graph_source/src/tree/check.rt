//! Checks a source: a text with the tree and the comments that a parser made of it.

ghost use Rattle.std.specs.Prelude.{◌↔◌, IfOk, IfSome, IsNone, MatchOption};
ghost use Rattle.deno_graph_source.specs.internal.Check.{JudgesSource};
ghost use Rattle.deno_graph_source.specs.FaultPlace.{HasFaultAt};
ghost use Rattle.deno_graph_source.specs.internal.Finding.{IsFindingIn};
ghost use Rattle.deno_graph_source.specs.Source.{IsValid, HasFault};

mod comments;
mod finding;
mod nodes;
mod ranges;

use self::comments::{check_comments, check_neighbours};
use self::finding::Finding;
use self::nodes::check_nodes;
use self::ranges::check_range;
use crate::tree::comments::Comments;
use crate::tree::fault::SourceFault;
use crate::tree::fault_place::SourceFaultPlace;
use crate::tree::node::Program;
use std::alloc::{AllocError, Global};

/// Returns a fault of a source, or `None` if the source is valid. Of several faults, any may be
/// returned. Fails only if an allocation fails.
pub fn source_fault(
    alloc: Global,
    text: &str,
    program: &Program,
    comments: &Comments,
) -> Result<Option<SourceFault>, AllocError>
    ensures valid { IfOk result (λ fault.
        IsNone fault ↔ IsValid text.now program.now comments.now) }
    ensures fault { IfOk result (λ fault.
        IfSome fault (HasFault text.now program.now comments.now)) }
{
    match find_fault(alloc, text, program, comments)? {
        Some(found) => Ok(Some(found.fault())),
        None => Ok(None),
    }
}

/// Returns a fault of a source and its place, or `None` if the source is valid. Of several faults,
/// any may be returned. Fails only if an allocation fails.
pub fn source_fault_place(
    alloc: Global,
    text: &str,
    program: &Program,
    comments: &Comments,
) -> Result<Option<SourceFaultPlace>, AllocError>
    ensures valid { IfOk result (λ found.
        IsNone found ↔ IsValid text.now program.now comments.now) }
    ensures fault { IfOk result (λ found. IfSome found (λ found.
        HasFault text.now program.now comments.now found.fault)) }
    ensures place { IfOk result (λ found. IfSome found (λ found.
        HasFaultAt text.now program.now comments.now found.fault found.place)) }
{
    match find_fault(alloc, text, program, comments)? {
        Some(found) => Ok(Some(found.placed(comments))),
        None => Ok(None),
    }
}

/// Returns an error exactly if a source has a fault or an allocation fails.
pub(crate) fn check_source(
    alloc: Global,
    text: &str,
    program: &Program,
    comments: &Comments,
) -> Result<(), SourceFault>
    ensures { JudgesSource text.now program.now comments.now result }
{
    match find_fault(alloc, text, program, comments)? {
        Some(found) => Err(found.fault()),
        None => Ok(()),
    }
}

/// Finds a fault of a source. Fails only if an allocation fails.
fn find_fault<'a>(
    alloc: Global,
    text: &str,
    program: &Program,
    comments: &'a Comments,
) -> Result<Option<Finding<'a>>, AllocError>
    ensures { IfOk result (λ found. MatchOption found
        (IsValid text.now program.now comments.now)
        (IsFindingIn text.now program.now comments.now)) }
{
    if let Err(fault) = check_range(text, program.range) {
        return Ok(Some(Finding::Program(fault)));
    }
    if let Some(found) = check_nodes(alloc, text, program)? {
        return Ok(Some(Finding::Node(found)));
    }
    let mut all = comments.iter_unstable(alloc)?;
    if let Some(found) = check_comments(text, &all) {
        return Ok(Some(Finding::Comment(found)));
    }
    all.sort_by_key(|comment| comment.range.start)?;
    match check_neighbours(&all) {
        Some((before, after)) => Ok(Some(Finding::Overlap(before, after))),
        None => Ok(None),
    }
}
