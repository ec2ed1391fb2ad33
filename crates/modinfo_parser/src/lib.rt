//! The grammar of JavaScript, JSX and TypeScript: from a text to the nodes that the analysis of a module
//! reads, as a flat list.
#![tactic(auto)]

mod grammar;
mod language;
mod parser;
pub mod shape;
mod syntax;

pub use syntax::{Syntax, read};
