//! Sources of module documents.

use deno_graph_source::tree::ParsedSource;
use modinfo::parse_document;
use std::process::Abort;

/// The source of a document.
pub fn source_of(rt: &(impl AllocGlobal + Abort), document: &str) -> ParsedSource {
    let document = parse_document(rt.alloc(), document).expect(rt, "a module document");
    document
        .into_source(rt.alloc())
        .expect(rt, "the source is valid")
}
