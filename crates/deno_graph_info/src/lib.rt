//! The result of analyzing a module, its JSON, the conversion from version 1 of that JSON, and the
//! modules that a module reaches.
#![tactic(auto)]

pub mod analysis;
pub mod codec;
pub mod conversion;
pub mod reach;
