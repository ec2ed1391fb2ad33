use crate::analysis::SpecifierWithRange;
use deno_graph_base::values::{TryClone, TypeScriptTypesResolutionMode};
use std::alloc::{AllocError, Global};

/// An import in a JSDoc comment.
#[derive(Debug, PartialEq, Eq, Drop)]
pub struct JsDocImportInfo {
    pub specifier: SpecifierWithRange,
    /// The value of the attribute `resolution-mode`, if it is a known mode.
    pub resolution_mode: Option<TypeScriptTypesResolutionMode>,
}

impl TryClone for JsDocImportInfo {
    fn try_clone(&self, alloc: Global) -> Result<JsDocImportInfo, AllocError> {
        Ok(JsDocImportInfo {
            specifier: self.specifier.try_clone(alloc)?,
            resolution_mode: self.resolution_mode,
        })
    }
}
