//! Texts with their positions, JavaScript strings, and lists, texts and maps that contracts see as
//! values.
#![tactic(auto)]

pub mod text;
pub mod values;
