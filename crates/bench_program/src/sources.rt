//! Makes a module of imports in code, as a caller with a parser does, and analyzes the module. Each
//! mode does the work of the modes above it too.
//!
//!     bench_program sources tree COUNT      makes the text and the tree of COUNT imports
//!     bench_program sources source COUNT    makes the parsed source
//!     bench_program sources info COUNT      prints the number of dependencies

use crate::imports::{import, program};
use crate::words::number;
use anyhow::{Context, Result};
use deno_graph_analysis::ast::module_info;
use deno_graph_source::text::SourceRange;
use deno_graph_source::tree::{Comments, MediaType, Node, ParsedSource, Program};
use deno_graph_source::values::Items;
use std::alloc::{AllocError, Global};
use std::rc::RcStr;
use url::Url;

/// The text of one import, with a line break.
const LINE: &str = "import { é } from \"./日本語.ts\";\n";

/// The specifier in `LINE`.
const SPECIFIER: &str = "./日本語.ts";

/// The length of `LINE` in bytes.
const LINE_BYTES: usize = 37;

/// The range of the quoted specifier in `LINE`.
const QUOTED: SourceRange = SourceRange { start: 19, end: 35 };

/// The length of the statement in `LINE`, in bytes.
const STATEMENT_BYTES: usize = 36;

pub fn run<R: AllocGlobal + Print>(rt: &R, words: &[&str]) -> Result<()> {
    let alloc = rt.alloc();
    let mode = *words.first().context("tree, source or info?")?;
    let count = number(words, 1)?;
    let text = lines(alloc, count)?;
    let program = imports(alloc, count)?;
    if mode == "tree" {
        return Ok(());
    }
    let source = source(alloc, text, program)?;
    if mode == "source" {
        return Ok(());
    }
    println!(rt; "{} dependencies", dependency_count(alloc, &source)?)?;
    Ok(())
}

fn dependency_count(alloc: Global, source: &ParsedSource) -> Result<usize, AllocError> {
    Ok(module_info(alloc, source)?.dependencies.len())
}

/// Returns `count` lines.
fn lines(alloc: Global, count: usize) -> Result<RcStr, AllocError> {
    let mut text = String::new(alloc);
    for _ in 0..count {
        text.push_str(LINE)?;
    }
    RcStr::from_str(alloc, text.as_str())
}

/// Returns the program of `count` lines.
fn imports(alloc: Global, count: usize) -> Result<Program, AllocError> {
    let mut body = Items::with_capacity(alloc, count)?;
    for i in 0..count {
        body.push(import_at(alloc, i.saturating_mul(LINE_BYTES))?)?;
    }
    Ok(program(count.saturating_mul(LINE_BYTES), body))
}

/// Returns the import of the line at the offset `start`.
fn import_at(alloc: Global, start: usize) -> Result<Node, AllocError> {
    let range = SourceRange::new(start, start.saturating_add(STATEMENT_BYTES));
    let quoted = SourceRange::new(
        start.saturating_add(QUOTED.start),
        start.saturating_add(QUOTED.end),
    );
    import(alloc, range, SPECIFIER, quoted)
}

fn source(alloc: Global, text: RcStr, program: Program) -> Result<ParsedSource> {
    Ok(ParsedSource::new(
        alloc,
        Url::parse(alloc, "file:///a.ts")?,
        text,
        MediaType::TypeScript,
        program,
        Comments::new(alloc),
        false,
    )?)
}
