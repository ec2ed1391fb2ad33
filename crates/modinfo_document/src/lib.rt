//! Module documents: JSON with a module's specifier, source, syntax tree and comments; reports on
//! documents. docs/FORMATS.md describes both.
#![tactic(auto)]

mod argument;
mod check;
mod comments;
pub mod document;
pub mod error;
mod key;
mod kind;
pub mod laws;
mod literal;
mod lookup;
mod named;
pub mod names;
mod node;
pub mod report;

pub use check::{check_document, fault_place};
pub use deno_graph_json::names::KINDS;
pub use document::{Document, parse_document, read_document};
pub use error::DocumentError;
pub use literal::read_string;
pub use names::{ObjectKind, member_names};
