//! Each item of `deno_graph_source`.

pub use deno_graph_source::text::laws::{
    boundaries_are_fronts, positions_are_unique, positions_keep_order,
};
pub use deno_graph_source::text::{JsString, Position, PositionRange, SourceRange, SourceTextInfo};
pub use deno_graph_source::tree::{
    Arg, BinaryOp, Callee, CommentKind, CommentPlace, CommentSide, Comments, DependencyComment,
    FaultPlace, ImportPhase, Kind, MediaType, Node, NodePart, ParseDiagnostic, ParseError,
    ParsedSource, Program, PropKey, ResolutionMode, ShapeRule, SourceFault, SourceFaultPlace,
    StrLit, source_fault, source_fault_place,
};
pub use deno_graph_source::values::{Items, Text, TextMap, TryClone};
