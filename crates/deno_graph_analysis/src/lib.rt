//! Facade for the analysis of modules: `ast`, `dep` and `jsdoc`, named after the files of
//! `deno_graph`. It defines nothing.
#![tactic(auto)]

pub mod ast;
pub mod dep;
pub mod jsdoc;
