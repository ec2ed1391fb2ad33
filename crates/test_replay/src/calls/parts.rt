//! Calls on parts of a source. The answer is a member of the module's information.

ghost use Rattle.deno_graph_source.specs.Source.{IsValid};

use crate::answer::{named, push_line};
use crate::case_error::CaseError;
use deno_graph_analysis::ast::analyze_ts_or_deno_types;
use deno_graph_analysis::jsdoc::jsdoc_imports;
use deno_graph_info::analysis::{JsDocImportInfo, ModuleInfo, SpecifierWithRange};
use deno_graph_source::text::SourceTextInfo;
use deno_graph_source::tree::{Comments, MediaType, ParsedSource, Program};
use deno_graph_source::values::Items;
use std::alloc::{AllocError, Global};

/// The result of `jsdoc_imports` for all comments.
pub fn imports(alloc: Global, source: &ParsedSource) -> Result<String, CaseError> {
    let found = imports_of(alloc, source)?;
    named(alloc, imports_json(alloc, found)?.as_str())
}

fn imports_json(alloc: Global, found: Vec<JsDocImportInfo>) -> Result<String, AllocError> {
    let mut info = ModuleInfo::new(alloc);
    info.jsdoc_imports = Items::from_vec(found);
    info.to_json(alloc)
}

fn imports_of(alloc: Global, source: &ParsedSource) -> Result<Vec<JsDocImportInfo>, AllocError> {
    imports_in(
        alloc,
        source.media_type(),
        source.program(),
        source.text_info_lazy(),
        source.comments(),
    )
}

fn imports_in(
    alloc: Global,
    media_type: MediaType,
    program: &Program,
    text_info: &SourceTextInfo,
    comments: &Comments,
) -> Result<Vec<JsDocImportInfo>, AllocError>
    requires { IsValid text_info.now program.now comments.now }
{
    let _program = program;
    let all = comments.iter_unstable(alloc)?;
    jsdoc_imports(alloc, media_type, text_info, all.as_slice())
}

/// A line for each position with leading comments: the result of `analyze_ts_or_deno_types`.
pub fn types(alloc: Global, source: &ParsedSource) -> Result<String, CaseError> {
    let mut answer = String::new(alloc);
    for pos in 0..=source.text().as_str().len() {
        if source.comments().get_leading(pos).is_some() {
            let line = types_line(alloc, source, pos)?;
            push_line(&mut answer, "answer", line.as_str())?;
        }
    }
    Ok(answer)
}

fn types_line(alloc: Global, source: &ParsedSource, pos: usize) -> Result<String, AllocError> {
    let found = types_at(alloc, source, pos)?;
    let types = types_json(alloc, found)?;
    format!(in alloc; "{pos} {types}")
}

fn types_json(alloc: Global, found: Option<SpecifierWithRange>) -> Result<String, AllocError> {
    let mut info = ModuleInfo::new(alloc);
    info.self_types_specifier = found;
    info.to_json(alloc)
}

fn types_at(
    alloc: Global,
    source: &ParsedSource,
    pos: usize,
) -> Result<Option<SpecifierWithRange>, AllocError> {
    types_before(
        alloc,
        pos,
        source.program(),
        source.text_info_lazy(),
        source.comments(),
    )
}

fn types_before(
    alloc: Global,
    pos: usize,
    program: &Program,
    text_info: &SourceTextInfo,
    comments: &Comments,
) -> Result<Option<SpecifierWithRange>, AllocError>
    requires { IsValid text_info.now program.now comments.now }
{
    let _program = program;
    match comments.get_leading(pos) {
        Some(leading) => analyze_ts_or_deno_types(alloc, text_info, leading),
        None => Ok(None),
    }
}
