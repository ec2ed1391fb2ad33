//! Texts with positions and ranges, and JavaScript strings.

pub(crate) mod bytes;
pub(crate) mod checkpoints;
pub(crate) mod cursor;
pub mod js_string;
pub mod laws;
pub mod position;
pub mod source_text_info;

pub use js_string::JsString;
pub use position::{Position, PositionRange, SourceRange};
pub use source_text_info::SourceTextInfo;
