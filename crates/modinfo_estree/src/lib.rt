//! Trees of JavaScript parsers, as ESTree describes them (https://github.com/estree/estree), read as module
//! documents. docs/ESTREE.md describes the trees, docs/FORMATS.md the documents.
#![tactic(auto)]

mod call;
mod candidates;
mod check;
mod child;
mod clause;
mod comment_error;
mod comment_order;
mod comment_ranges;
mod comments;
mod declaration;
mod document;
mod export;
mod expression;
mod import_type;
mod kind;
mod last_token;
pub mod laws;
mod literal;
mod marks;
mod member;
mod node;
mod offsets;
mod parentheses;
mod phase;
mod program;
mod property;
mod reading;
mod required;
mod role;
mod slice;
mod source;
mod stride;
mod tokens;
mod value_ends;

pub use check::check_estree;
pub use document::{parse_estree, read_estree};
