//! Syntax trees, comments, and parsed sources.

mod by_offset;
mod check;
pub mod comments;
pub mod fault;
pub mod fault_place;
pub mod media_type;
pub mod node;
pub mod parse_error;
pub mod parsed_source;

pub use check::{source_fault, source_fault_place};
pub use comments::{CommentKind, CommentPlace, CommentSide, Comments, DependencyComment};
pub use deno_graph_base::values::ResolutionMode;
pub use fault::SourceFault;
pub use fault_place::{FaultPlace, NodePart, ShapeRule, SourceFaultPlace};
pub use media_type::MediaType;
pub use node::{Arg, BinaryOp, Callee, ImportPhase, Kind, Node, Program, PropKey, StrLit};
pub use parse_error::{ParseDiagnostic, ParseError};
pub use parsed_source::ParsedSource;
