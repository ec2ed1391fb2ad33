//! What literals of JavaScript spell: the values of string literals and the cooked values of templates,
//! by ECMA-262.
#![tactic(auto)]

mod element;
mod escape;
pub mod laws;
mod plain;
mod text;
mod value;

pub use value::{cooked_value, spells, string_value};
