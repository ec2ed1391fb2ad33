//! Where pieces of a text end. Each function takes the text and an offset in bytes from zero, and returns
//! an offset.

pub mod comments;
pub mod jsx;
pub mod literals;
pub mod spaces;
pub mod words;
