//! The imports in JSDoc comments: `@import` declarations and `import("..")` in braces.
#![tactic(auto)]

pub mod grammar;
mod import;
pub mod laws;
mod pass;

pub use deno_graph_base::values::TypeScriptTypesResolutionMode;
pub use grammar::declaration::parse_jsdoc_import_decl;
pub use grammar::dynamic::parse_jsdoc_dynamic_import;
pub use import::{JsDocImport, NoParse, Scan};
pub use pass::scan;
