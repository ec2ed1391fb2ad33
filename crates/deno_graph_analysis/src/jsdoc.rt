//! The imports in JSDoc comments.

pub use deno_graph_jsdoc::{
    JsDocImport, NoParse, Scan, parse_jsdoc_dynamic_import, parse_jsdoc_import_decl, scan,
};
pub use deno_graph_module_info::jsdoc::jsdoc_imports;
