//! Parsed sources: a text with its syntax tree and its comments, which the analysis of a module
//! reads.
#![tactic(auto)]

pub mod text;
pub mod tree;
pub mod values;
