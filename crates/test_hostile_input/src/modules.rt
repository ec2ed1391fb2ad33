//! Analysis of modules, made in code, that are deeper, wider or longer than real ones.

use crate::comments::{braces, filed};
use crate::summary::{argument_summary, summary};
use crate::trees::{calls, nested, operands, sum, types};
use anyhow::{Context, Result, bail};
use deno_graph_analysis::ast::module_info;
use deno_graph_analysis::dep::{DynamicArgument, argument_of};
use deno_graph_analysis::jsdoc::scan;
use deno_graph_info::analysis::ModuleInfo;
use deno_graph_source::text::SourceRange;
use deno_graph_source::tree::{Comments, MediaType, Node, ParsedSource, Program};
use deno_graph_source::values::Items;
use std::alloc::{AllocError, Global};
use std::rc::RcStr;
use url::Url;

/// Prints the dependencies and the JSDoc imports of a module, each with the number of its repetitions;
/// for `sum` the value of the sum as an argument.
pub fn print_summary<R: AllocGlobal + Print>(rt: &R, name: &str, count: usize) -> Result<()> {
    let text = summary_of(rt.alloc(), name, count)?;
    println!(rt; "{name} {count}: {text}")?;
    if name == "braces" {
        print_starts(rt, count)?;
    }
    Ok(())
}

fn summary_of(alloc: Global, name: &str, count: usize) -> Result<String> {
    let source = source(alloc, name, count)?;
    if name == "sum" {
        return known_of_first(alloc, &source);
    }
    let info = info_of(alloc, &source)?;
    Ok(summary(alloc, &info)?)
}

/// The result of `argument_of` for the first node of a module.
fn known_of_first(alloc: Global, source: &ParsedSource) -> Result<String> {
    let argument = first_argument(alloc, source)?.context("the module has no node")?;
    Ok(argument_summary(alloc, &argument)?)
}

fn first_argument(
    alloc: Global,
    source: &ParsedSource,
) -> Result<Option<DynamicArgument<'_>>, AllocError> {
    match source.program().body.first() {
        Some(node) => Ok(Some(argument_of(alloc, node)?)),
        None => Ok(None),
    }
}

/// The information on a source. Hides the contract of `module_info`, which a caller's proof doesn't need.
fn info_of(alloc: Global, source: &ParsedSource) -> Result<ModuleInfo, AllocError> {
    module_info(alloc, source)
}

/// The number of starts of the parsers of JSDoc imports in a comment of braces, and the ranges of the
/// imports.
fn print_starts<R: AllocGlobal + Print>(rt: &R, count: usize) -> Result<()> {
    let text = braces(rt.alloc(), count)?;
    let found = scan(rt.alloc(), text.as_str())?;
    for import in found.imports.iter() {
        let (start, end) = (import.specifier_range.start, import.specifier_range.end);
        println!(rt; "braces {count}: {:?} at {start}..{end}", import.specifier)?;
    }
    let (dynamic, declarations) = (found.dynamic_starts, found.decl_starts);
    println!(rt; "braces {count}: {dynamic} dynamic starts, {declarations} of declarations")?;
    Ok(())
}

/// The module of this name, with this number of nodes, braces or comments.
pub fn source(alloc: Global, name: &str, count: usize) -> Result<ParsedSource> {
    match name {
        "braces" => {
            let text = braces(alloc, count)?;
            commented(alloc, text.as_str(), 1)
        }
        "filings" => commented(alloc, "* {import('a')} ", count),
        name => {
            let names = names(alloc, "")?;
            let body = body(alloc, name, count)?;
            parsed(
                alloc,
                names,
                MediaType::TypeScript,
                body,
                Comments::new(alloc),
            )
        }
    }
}

/// A module of one comment, filed this number of times before and after the module.
fn commented(alloc: Global, text: &str, count: usize) -> Result<ParsedSource> {
    let source = format!(in alloc; "/*{text}*/")?;
    let names = names(alloc, source.as_str())?;
    let comments = filed(alloc, text, source.len(), count)?;
    parsed(
        alloc,
        names,
        MediaType::JavaScript,
        Items::new(alloc),
        comments,
    )
}

/// A specifier, and a text to be shared.
fn names(alloc: Global, text: &str) -> Result<(Url, RcStr)> {
    let specifier = Url::parse(alloc, "file:///a.ts")?;
    Ok((specifier, RcStr::from_str(alloc, text)?))
}

fn parsed(
    alloc: Global,
    (specifier, text): (Url, RcStr),
    media_type: MediaType,
    body: Items<Node>,
    comments: Comments,
) -> Result<ParsedSource> {
    let program = Program {
        range: SourceRange::new(0, text.len()),
        body,
        has_shebang: false,
    };
    Ok(ParsedSource::new(alloc, specifier, text, media_type, program, comments, false)?)
}

fn body(alloc: Global, tree: &str, count: usize) -> Result<Items<Node>> {
    match tree {
        "nested" => Ok(nested(alloc, count)?),
        "calls" => Ok(calls(alloc, count)?),
        "operands" => Ok(operands(alloc, count)?),
        "sum" => Ok(sum(alloc, count)?),
        "types" => Ok(types(alloc, count)?),
        _ => bail!("no module has this name"),
    }
}
