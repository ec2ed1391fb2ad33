//! Tests of the library and of the program that can't be test cases of `crates/test_replay`, which are
//! texts. They use the library by its facades, as a caller does. A test ends if an allocation fails;
//! in `failed_allocations` of `crates/test_replay` allocations fail.
#![tactic(auto)]

#[cfg(test)]
pub mod facades;
#[cfg(test)]
mod literals;
#[cfg(test)]
mod parser;
#[cfg(test)]
mod program;
#[cfg(test)]
mod source;
