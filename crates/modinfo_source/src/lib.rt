//! Source texts of JavaScript and TypeScript: from a text to a `ParsedSource`, whose literals have the
//! values that the text spells.
#![tactic(auto)]

mod comments;
mod error;
mod parse;
mod slice;
mod tree;

pub use error::{DEFECT, TextError};
pub use parse::parse_module;
