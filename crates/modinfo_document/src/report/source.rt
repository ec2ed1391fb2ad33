//! Reports on faults of a source.

ghost use Rattle.std.specs.Prelude.{◌≡◌, IfOk, IsSomeAnd, List, None, Some};
ghost use Rattle.std.specs.String.{string_bytes};
ghost use Rattle.deno_graph_json.specs.Data.{data_of};
ghost use Rattle.deno_graph_json.specs.declared.error.Step.{Step};
ghost use Rattle.deno_graph_source.specs.FaultName.{fault_name};
ghost use Rattle.modinfo_document.specs.Check.{HasPlace, IsFaultOf, points_in_module};
ghost use Rattle.modinfo_document.specs.Document.{Contents, Has, reads_document};
ghost use Rattle.modinfo_document.specs.Place.{PointsToFault, PointsToOther, range_at, range_in};
ghost use Rattle.modinfo_document.specs.Pointer.{pointer_text};
ghost use Rattle.modinfo_document.specs.Report.{IsNamed};

use crate::document::Document;
use crate::report::FaultReport;
use crate::report::comment::comment_pointer;
use crate::report::place::{find_node, part_pointer, place_range, program_pointer};
use deno_graph_json::{Element, ReferenceToken, push_token};
use deno_graph_source::tree::{FaultPlace, NodePart, ShapeRule, SourceFault, SourceFaultPlace};
use std::alloc::{AllocError, Global};

/// The report on a fault of the source of a document, which was read from the value `root`. The only
/// error is a failed allocation.
pub fn source_report(
    alloc: Global,
    root: Element<'_>,
    document: &Document,
    found: &SourceFaultPlace,
) -> Result<FaultReport, AllocError>
    ensures name { IfOk result (IsNamed (fault_name found.now.fault)) }
    ensures place { (contents : Contents) → reads_document (data_of root.entry) ≡ Some contents
        → Has contents document.now → IsFaultOf document.now found.now
        → IfOk result (HasPlace points_in_module (data_of root.entry) document.now found.now) }
{
    let pointer = fault_pointer(alloc, root, document, found)?;
    let other = other_pointer(alloc, root, document, found)?;
    let mut report = source_report_without_pointers(alloc, document, found)?;
    report.pointer = pointer;
    report.other = other;
    Ok(report)
}

/// The report on a fault of the source of a document whose values aren't those of a module document. It
/// has the range of the fault and no pointer. The only error is a failed allocation.
pub fn source_report_without_pointers(
    alloc: Global,
    document: &Document,
    found: &SourceFaultPlace,
) -> Result<FaultReport, AllocError>
    ensures name { IfOk result (IsNamed (fault_name found.now.fault)) }
    ensures range { IfOk result (λ report.
        report.range ≡ range_at document.now.program document.now.comments found.now.place) }
    ensures pointer { IfOk result (λ report. report.pointer ≡ None) }
    ensures other { IfOk result (λ report. report.other ≡ None) }
    ensures at { IfOk result (λ report. report.at ≡ None) }
{
    let fault = String::from_str(alloc, found.fault.name())?;
    let expected = expected(alloc, found, document.source.len())?;
    Ok(FaultReport {
        fault,
        pointer: None,
        other: None,
        range: place_range(document, &found.place),
        at: None,
        expected,
    })
}

/// The JSON Pointer of the part with the fault: for a fault of a range, the range.
fn fault_pointer(
    alloc: Global,
    root: Element<'_>,
    document: &Document,
    found: &SourceFaultPlace,
) -> Result<Option<String>, AllocError>
    ensures { (contents : Contents) → reads_document (data_of root.entry) ≡ Some contents
        → Has contents document.now → IsFaultOf document.now found.now
        → IfOk result (PointsToFault (data_of root.entry) document.now.program document.now.comments
        found.now.fault found.now.place) }
{
    match &found.place {
        FaultPlace::Program => Ok(Some(program_pointer(alloc)?)),
        FaultPlace::Node { path, part } => match find_node(&document.program, path.as_slice()) {
            Some(node) => Ok(Some(part_pointer(alloc, path.as_slice(), node, *part)?)),
            None => Ok(None),
        },
        FaultPlace::Comment(place) => {
            let pointer = comment_pointer(alloc, root, *place)?;
            match found.fault {
                SourceFault::CommentText => Ok(pointer),
                _ => range_pointer(pointer),
            }
        }
        FaultPlace::Comments(_, second) => comment_pointer(alloc, root, *second),
    }
}

/// The JSON Pointer of the other of two comments that share a byte.
fn other_pointer(
    alloc: Global,
    root: Element<'_>,
    document: &Document,
    found: &SourceFaultPlace,
) -> Result<Option<String>, AllocError>
    ensures { (contents : Contents) → reads_document (data_of root.entry) ≡ Some contents
        → Has contents document.now → IsFaultOf document.now found.now
        → IfOk result (PointsToOther (data_of root.entry) document.now.comments found.now.place) }
{
    match &found.place {
        FaultPlace::Comments(first, _) => comment_pointer(alloc, root, *first),
        _ => Ok(None),
    }
}

/// The pointer of the range of the value with this pointer.
fn range_pointer(pointer: Option<String>) -> Result<Option<String>, AllocError>
    ensures { (path : List Step) → IsSomeAnd pointer (λ text. string_bytes text ≡ pointer_text path)
        → IfOk result (λ of_range. IsSomeAnd of_range
        (λ text. string_bytes text ≡ pointer_text (range_in path))) }
{
    let Some(mut pointer) = pointer else {
        return Ok(None);
    };
    push_token(&mut pointer, ReferenceToken::Name("range"))?;
    Ok(Some(pointer))
}

/// What is expected in place of the faulty value, in words. The length of the source is given in bytes.
fn expected(alloc: Global, found: &SourceFaultPlace, length: usize) -> Result<String, AllocError> {
    match &found.fault {
        SourceFault::RangeOutside => {
            format!(in alloc; "an end of at most {length}, the source's length")
        }
        SourceFault::Shape => String::from_str(alloc, expected_children(&found.place)),
        fault => String::from_str(alloc, expected_range(fault)),
    }
}

/// What is expected of the range of a node or of a comment.
fn expected_range(fault: &SourceFault) -> &'static str {
    match fault {
        SourceFault::RangeReversed => "a start of at most the end",
        SourceFault::RangeOffBoundary => "a start and an end between characters of the source",
        SourceFault::CommentText => "the comment that the source has at this range",
        _ => "a comment that is the same as the other, or shares no byte with it",
    }
}

/// What is expected of the children of a node.
fn expected_children(place: &FaultPlace) -> &'static str {
    let FaultPlace::Node {
        part: NodePart::Children(rule),
        ..
    } = place
    else {
        return "the children that its kind needs";
    };
    match rule {
        ShapeRule::WithClause => "an object literal as the first child, since hasWith is true",
        ShapeRule::Template => "one child fewer than quasis",
        ShapeRule::Binary => "two children",
        ShapeRule::KeyValue => "a child, which is the property's value",
        ShapeRule::Call => "a child for each argument, after the callee where that is expr",
    }
}
