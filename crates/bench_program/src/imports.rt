//! Trees of imports.

use deno_graph_source::text::{JsString, SourceRange};
use deno_graph_source::tree::{ImportPhase, Kind, Node, Program, StrLit};
use deno_graph_source::values::Items;
use std::alloc::{AllocError, Global};

/// Returns the import at `range`, whose quoted specifier is at `quoted`.
pub fn import(
    alloc: Global,
    range: SourceRange,
    specifier: &str,
    quoted: SourceRange,
) -> Result<Node, AllocError> {
    let kind = Kind::ImportDecl {
        type_only: false,
        phase: ImportPhase::Evaluation,
        src: StrLit::new(JsString::from_str(alloc, specifier)?, quoted),
        has_specifiers: true,
        has_with: false,
    };
    Ok(Node::new(alloc, range, kind))
}

/// Returns the program of a text of `size` bytes.
pub fn program(size: usize, body: Items<Node>) -> Program {
    Program {
        range: SourceRange::new(0, size),
        body,
        has_shebang: false,
    }
}
