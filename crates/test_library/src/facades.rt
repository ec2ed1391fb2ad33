//! Each public item of the library, by its path in one of the three facades. This crate doesn't
//! compile if a facade lacks a name or a type lacks a trait. `.ci/check_facades` finds items that
//! are missing here.

pub mod analysis;
pub mod info;
pub mod source;
pub mod types;
