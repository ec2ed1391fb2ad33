//! Analyzes a parsed module: computes its `ModuleInfo`, which has the dependencies of the module and
//! what its comments name.
#![tactic(auto)]

mod dependencies;
mod head_pragmas;
mod head_tail;
mod info;
pub mod jsdoc;
pub mod laws;
mod read_types;
mod references;
mod script;
mod source_map;
mod specifier;
mod spelled;
mod types;

pub use info::{module_info, module_info_from_program};
pub use types::analyze_ts_or_deno_types;
