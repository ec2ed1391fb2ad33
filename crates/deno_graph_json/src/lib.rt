//! JSON: texts read into flat lists, JSON Pointers, and traits to read and write typed values.
#![tactic(auto)]

pub mod built_value;
pub mod error;
pub mod expected;
pub mod flat;
pub mod float;
pub mod json_writer;
pub mod laws;
pub mod names;
pub mod object;
pub mod object_reader;
pub mod pointer;
mod position;
pub mod read;
mod resolution_mode;
pub mod write;

pub use error::{Mismatch, ReadError, Step};
pub use expected::{Expected, Pair};
pub use flat::{Element, Elements, FlatNode, Members, Tape, TapeError, View};
pub use float::{find_float, has_float};
pub use json::Writer;
pub use json_writer::JsonWriter;
pub use names::NameList;
pub use object::ToObject;
pub use object_reader::ObjectReader;
pub use pointer::{ReferenceToken, push_token};
pub use read::FromJson;
pub use write::{ToJson, append, into_text, new_writer, to_text, to_value};
