//! Tests of `deno_graph_source`: the result of each public call that no test case covers, and positions
//! in long texts.

mod comments;
mod copied;
mod texts;
mod trees;
mod values;
