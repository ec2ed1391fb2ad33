//! Where the tokens of a text end. Each function takes the text and an offset in bytes from zero, and
//! returns an offset.

pub mod escapes;
pub mod literals;
pub mod names;
pub mod numbers;
pub mod operators;
pub mod spaces;
