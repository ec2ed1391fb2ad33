//! Lists, texts and maps as values.

pub use deno_graph_base::values::{Items, Text, TextMap, TryClone};
