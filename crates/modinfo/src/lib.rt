//! The program `modinfo` as a library: reads documents, analyzes or converts them, and prints JSON.
#![tactic(auto)]

pub mod check;
pub mod command;
mod command_line;
mod convert;
pub mod fault;
mod file_url;
pub mod files;
pub mod format;
mod help;
mod input;
pub mod laws;
mod lines;
mod output;
mod program;
mod reach;
mod request;
pub mod source;
mod words;

pub use command::Command;
pub use command_line::{CommandLine, Names};
pub use fault::Fault;
pub use files::serve_files;
pub use format::Format;
pub use modinfo_document as document;
pub use modinfo_document::parse_document;
pub use program::serve;
