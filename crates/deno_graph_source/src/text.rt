//! Positions, texts with their lines, and strings.

pub use deno_graph_base::text::{
    JsString, Position, PositionRange, SourceRange, SourceTextInfo, laws,
};
