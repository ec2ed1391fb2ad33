//! The conversion of a module's stored information from version 1 to version 2.

pub mod change;
pub mod comment;
pub mod convert;
mod dependency;
pub mod fault;
pub mod laws;
mod names;
mod ordered;
pub mod text;
mod types;
mod write;

pub use change::{Change, change_of};
pub use convert::module_graph_1_to_2;
pub use fault::ConvertFault;
pub use text::converted_text;
