//! Small sources, and a parser that knows two texts under each of two specifiers.

use crate::case_error::CaseError;
use deno_graph_analysis::ast::{ParseOptions, module_info};
use deno_graph_info::analysis::ModuleInfo;
use deno_graph_source::text::SourceRange;
use deno_graph_source::tree::{
    CommentKind, Comments, DependencyComment, Kind, MediaType, Node, ParsedSource, Program,
};
use deno_graph_source::values::{Items, Text};
use example_table_parser::TableParser;
use std::alloc::{AllocError, Global};
use std::cell::Cell;
use std::rc::{Rc, RcStr};
use url::Url;

pub const U: &str = "file:///u.js";

pub const V: &str = "file:///v.js";

pub fn url(alloc: Global, specifier: &str) -> Result<Url, CaseError> {
    Ok(Url::parse(alloc, specifier)?)
}

/// Returns the source of a text, whose program is one export.
pub fn source(alloc: Global, specifier: &str, text: &str) -> Result<ParsedSource, CaseError> {
    let specifier = url(alloc, specifier)?;
    let shared = RcStr::from_str(alloc, text)?;
    let range = SourceRange::new(0, text.len());
    let program = Program {
        range,
        body: Items::from_item(alloc, Node::new(alloc, range, Kind::ExportOther))?,
        has_shebang: false,
    };
    source_of(alloc, specifier, shared, program, Comments::new(alloc))
}

/// Returns a source under `U` with one JSDoc comment: an import after hundreds of braces.
pub fn braces(alloc: Global) -> Result<ParsedSource, CaseError> {
    let text = text_of_braces(alloc)?;
    let source = format!(in alloc; "/*{text}*/")?;
    source_of_comment(alloc, source.as_str(), text.as_str())
}

fn text_of_braces(alloc: Global) -> Result<String, AllocError> {
    let mut text = String::from_str(alloc, "*")?;
    for _ in 0..300 {
        text.push('{')?;
    }
    text.push_str(" import('a') }")?;
    Ok(text)
}

/// Returns a source with one comment of this text.
fn source_of_comment(alloc: Global, source: &str, text: &str) -> Result<ParsedSource, CaseError> {
    let specifier = url(alloc, U)?;
    let shared = RcStr::from_str(alloc, source)?;
    let range = SourceRange::new(0, source.len());
    let comments = comments_of(alloc, text, range)?;
    let program = Program {
        range,
        body: Items::new(alloc),
        has_shebang: false,
    };
    source_of(alloc, specifier, shared, program, comments)
}

fn comments_of(alloc: Global, text: &str, range: SourceRange) -> Result<Comments, AllocError> {
    let comment = DependencyComment {
        kind: CommentKind::Block,
        range,
        text: Text::from_str(alloc, text)?,
    };
    let mut comments = Comments::new(alloc);
    comments.add_leading(0, comment)?;
    Ok(comments)
}

fn source_of(
    alloc: Global,
    specifier: Url,
    text: RcStr,
    program: Program,
    comments: Comments,
) -> Result<ParsedSource, CaseError> {
    let media_type = MediaType::JavaScript;
    Ok(ParsedSource::new(alloc, specifier, text, media_type, program, comments, false)?)
}

/// Returns the info of a source. Has no contract, since no proof of a caller needs one.
pub fn info_of(alloc: Global, source: &ParsedSource) -> Result<ModuleInfo, AllocError> {
    module_info(alloc, source)
}

/// Returns a parser of the texts `a` and `b`.
pub fn table(alloc: Global) -> Result<TableParser, CaseError> {
    let calls = Rc::new(alloc, Cell::new(0))?;
    parser(alloc, &calls)
}

/// Returns a parser of the texts `a` and `b`, which counts its calls.
pub fn parser(alloc: Global, calls: &Rc<Cell<u64>>) -> Result<TableParser, CaseError> {
    let mut sources = Vec::new(alloc);
    for (specifier, text) in &[(U, "a"), (U, "b"), (V, "a"), (V, "b")] {
        sources.push(source(alloc, specifier, text)?)?;
    }
    Ok(TableParser::new(sources, calls.clone()?))
}

pub fn options<'a>(
    alloc: Global,
    specifier: &'a Url,
    text: &str,
    scope_analysis: bool,
) -> Result<ParseOptions<'a>, AllocError> {
    Ok(ParseOptions {
        specifier,
        source: RcStr::from_str(alloc, text)?,
        media_type: MediaType::JavaScript,
        scope_analysis,
    })
}
