//! The tree of a module with one import, made in code node by node. Both ways use it.

use deno_graph_source::text::{JsString, SourceRange};
use deno_graph_source::tree::{ImportPhase, Kind, Node, Program, StrLit};
use deno_graph_source::values::Items;
use std::alloc::{AllocError, Global};

/// Returns the program of `import "SPECIFIER";`. Ranges are in bytes. The range of the string
/// includes its quotes.
pub fn import_program(alloc: Global, specifier: &str) -> Result<Program, AllocError> {
    let string = SourceRange::new(7, specifier.len().saturating_add(9));
    let range = SourceRange::new(0, string.end.saturating_add(1));
    let kind = Kind::ImportDecl {
        type_only: false,
        phase: ImportPhase::Evaluation,
        src: StrLit::new(JsString::from_str(alloc, specifier)?, string),
        has_specifiers: false,
        has_with: false,
    };
    let body = Items::from_item(alloc, Node::new(alloc, range, kind))?;
    Ok(Program {
        range,
        body,
        has_shebang: false,
    })
}
