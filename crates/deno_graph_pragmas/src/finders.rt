//! Finders of pragmas in the text of a comment.

mod captured;
pub mod jsx;
pub mod laws;
mod letter;
pub mod matches;
pub mod references;
mod scan;
pub mod source_map;
pub mod types;

pub use jsx::{find_jsx_import_source, find_jsx_import_source_types};
pub use matches::{DenoTypesPragmaMatch, Match};
pub use references::{
    find_path_reference, find_resolution_mode, find_types_reference,
    is_comment_triple_slash_reference,
};
pub use source_map::find_source_mapping_url;
pub use types::{find_deno_types, find_ts_self_types, find_ts_types};
