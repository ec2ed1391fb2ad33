//! The grammar of the imports in JSDoc comments.

pub(crate) mod attributes;
pub(crate) mod cached_lists;
pub(crate) mod cached_spaces;
pub(crate) mod counted;
pub(crate) mod declaration;
pub(crate) mod dynamic;
pub mod laws;
pub(crate) mod parts;
