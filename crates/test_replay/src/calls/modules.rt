//! Calls on whole modules.

use crate::answer::{named, valued};
use crate::calls::infos::to_value;
use crate::case_error::CaseError;
use deno_graph_analysis::ast::{module_info, module_info_from_program};
use deno_graph_analysis::dep::{DependencyDescriptor, analyze_program_dependencies};
use deno_graph_info::analysis::{self, ModuleInfo};
use deno_graph_source::text::{PositionRange, SourceRange, SourceTextInfo};
use deno_graph_source::tree::{
    Comments, FaultPlace, ParsedSource, Program, SourceFault, SourceFaultPlace, source_fault,
    source_fault_place,
};
use deno_graph_source::values::TryClone;
use modinfo::parse_document;
use std::alloc::{AllocError, Global};

/// The result of `source_fault` for a document.
pub fn fault(alloc: Global, text: &str) -> Result<String, CaseError> {
    let document = parse_document(alloc, text)?;
    let (program, comments) = (&document.program, &document.comments);
    fault_in(alloc, document.source.as_str(), program, comments)
}

fn fault_in(
    alloc: Global,
    text: &str,
    program: &Program,
    comments: &Comments,
) -> Result<String, CaseError> {
    match source_fault(alloc, text, program, comments)? {
        None => named(alloc, "null"),
        Some(fault) => named(alloc, format!(in alloc; "{fault}")?.as_str()),
    }
}

/// The result of `source_fault_place` for a document, if `source_fault` has the same fault and a copy
/// of the result is equal.
pub fn fault_place(alloc: Global, text: &str) -> Result<String, CaseError> {
    let document = parse_document(alloc, text)?;
    let (program, comments) = (&document.program, &document.comments);
    fault_place_in(alloc, document.source.as_str(), program, comments)
}

fn fault_place_in(
    alloc: Global,
    text: &str,
    program: &Program,
    comments: &Comments,
) -> Result<String, CaseError> {
    let fault = source_fault(alloc, text, program, comments)?;
    match source_fault_place(alloc, text, program, comments)? {
        None => named(alloc, if fault.is_none() { "null" } else { "no place" }),
        Some(found) => named(alloc, place_line(alloc, fault, &found)?.as_str()),
    }
}

fn place_line(
    alloc: Global,
    fault: Option<SourceFault>,
    found: &SourceFaultPlace,
) -> Result<String, AllocError> {
    if fault.as_ref() != Some(&found.fault) || !is_copied(alloc, found)? {
        return String::from_str(alloc, "another fault, or another copy");
    }
    let SourceFaultPlace { fault, place } = found;
    match place {
        FaultPlace::Node { path, part } => format!(in alloc;
            "{fault} {:?} {part:?}",
            path.as_slice()
        ),
        place => format!(in alloc; "{fault} {place:?}"),
    }
}

/// The media type of a source, and whether it has types.
pub fn media_type(alloc: Global, source: &ParsedSource) -> Result<String, CaseError> {
    let media_type = source.media_type();
    let kind = if media_type.is_typed() {
        "typed"
    } else {
        "untyped"
    };
    named(alloc, format!(in alloc; "{media_type:?} {kind}")?.as_str())
}

fn info_of(alloc: Global, source: &ParsedSource) -> Result<ModuleInfo, AllocError> {
    module_info(alloc, source)
}

fn info_of_parts(alloc: Global, source: &ParsedSource) -> Result<ModuleInfo, AllocError> {
    module_info_from_program(
        alloc,
        source.media_type(),
        source.program(),
        source.text_info_lazy(),
        source.comments(),
    )
}

/// The result of `module_info`, if all other calls for the same information have the same result.
pub fn every_way(alloc: Global, source: &ParsedSource) -> Result<String, CaseError> {
    let info = info_of(alloc, source)?;
    every_way_to(alloc, source, &info)
}

fn every_way_to(
    alloc: Global,
    source: &ParsedSource,
    info: &ModuleInfo,
) -> Result<String, CaseError> {
    if by_copies(alloc, source, info)? && by_dependencies(alloc, source, info)? {
        valued(alloc, &to_value(alloc, info)?)
    } else {
        named(alloc, "other calls have another result")
    }
}

/// Returns whether copies are equal, and a call on the parts of the source has the same result.
fn by_copies(alloc: Global, source: &ParsedSource, info: &ModuleInfo) -> Result<bool, AllocError> {
    Ok(
        is_made_of_parts(alloc, source, info)?
            && is_copied(alloc, info)?
            && is_copied(alloc, source.program())?
            && is_copied(alloc, source.comments())?,
    )
}

fn is_made_of_parts(
    alloc: Global,
    source: &ParsedSource,
    info: &ModuleInfo,
) -> Result<bool, AllocError> {
    Ok(info_of_parts(alloc, source)? == *info)
}

/// Returns whether a copy is equal.
fn is_copied<T: TryClone + PartialEq + Drop>(alloc: Global, value: &T) -> Result<bool, AllocError> {
    Ok(value.try_clone(alloc)? == *value)
}

/// Returns whether the descriptors that borrow from the tree are the same as those of the information.
fn by_dependencies(
    alloc: Global,
    source: &ParsedSource,
    info: &ModuleInfo,
) -> Result<bool, AllocError> {
    let found = analyze_program_dependencies(alloc, source.program(), source.comments())?;
    Ok(are_same(source.text_info_lazy(), found.as_slice(), info))
}

fn are_same(
    text_info: &SourceTextInfo,
    found: &[DependencyDescriptor<'_>],
    info: &ModuleInfo,
) -> bool {
    found.len() == info.dependencies.len()
        && found
            .iter()
            .zip(info.dependencies.iter())
            .all(|(borrowed, owned)| is_same(text_info, borrowed, owned))
}

/// Returns whether both have the same kind, specifier, range and attributes.
fn is_same(
    text_info: &SourceTextInfo,
    borrowed: &DependencyDescriptor<'_>,
    owned: &analysis::DependencyDescriptor,
) -> bool {
    match (borrowed, owned) {
        (DependencyDescriptor::Static(borrowed), analysis::DependencyDescriptor::Static(owned)) => {
            borrowed.kind == owned.kind
                && borrowed.specifier == owned.specifier.as_str()
                && is_at(text_info, borrowed.specifier_range, &owned.specifier_range)
                && borrowed.is_side_effect == owned.is_side_effect
                && borrowed.import_attributes == owned.import_attributes
        }
        (DependencyDescriptor::Dynamic(borrowed), analysis::DependencyDescriptor::Dynamic(owned)) =>
            {
                borrowed.kind == owned.kind
                    && is_at(text_info, borrowed.argument_range, &owned.argument_range)
                    && borrowed.import_attributes == owned.import_attributes
            }
        _ => false,
    }
}

fn is_at(text_info: &SourceTextInfo, range: SourceRange, positions: &PositionRange) -> bool {
    positions.as_source_range(text_info) == Some(range)
}
