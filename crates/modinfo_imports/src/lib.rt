//! The words of a text that dependencies begin with: at each a node of the tree begins, or what is around the word
//! shows that no dependency does.
#![tactic(auto)]

mod attributes;
pub mod claims;
pub mod duty;
pub mod find;
pub mod keyword;
pub mod nodes;
pub mod plain;
pub mod plain_element;
pub mod plain_piece;
pub mod plain_tag;
mod spans;
pub mod watch;
