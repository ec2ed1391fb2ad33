//! Lists, texts and maps that contracts see as their contents, without pointers or capacities.

pub mod items;
pub mod resolution_mode;
pub mod text;
pub mod text_map;
pub mod try_clone;

pub use items::Items;
pub use resolution_mode::{ResolutionMode, TypeScriptTypesResolutionMode};
pub use text::Text;
pub use text_map::TextMap;
pub use try_clone::TryClone;
