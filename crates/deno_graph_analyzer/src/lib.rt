//! Analysis with a parser that the caller brings: the traits of parsers, stores and analyzers, a
//! store in memory, a parser and analyzers over the traits, and runs of commands.
#![tactic(auto)]

pub mod analyzer;
pub mod capturing;
pub mod parser;
pub mod run;
pub mod store;
