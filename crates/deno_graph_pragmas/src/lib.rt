//! Finders of pragmas in the comments of a module.
#![tactic(auto)]

pub mod finders;
