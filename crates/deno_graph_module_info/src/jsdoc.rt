//! The imports in the JSDoc comments of a module.

mod analyze;
mod imports;
mod infos;
pub mod laws;

pub(crate) use analyze::analyze_jsdoc_imports;
pub use imports::{imports_of, reads_jsdoc};
pub use infos::jsdoc_imports;
