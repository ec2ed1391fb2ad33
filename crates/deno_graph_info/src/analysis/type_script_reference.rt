use crate::analysis::specifier_with_range::SpecifierWithRange;
use deno_graph_base::values::{TryClone, TypeScriptTypesResolutionMode};
use std::alloc::{AllocError, Global};

/// A triple-slash reference.
#[derive(Debug, PartialEq, Eq, Drop)]
pub enum TypeScriptReference {
    /// `/// <reference path=".." />`.
    Path(SpecifierWithRange),
    /// `/// <reference types=".." />`.
    Types {
        specifier: SpecifierWithRange,
        /// The value of `resolution-mode`, if it is a known mode.
        resolution_mode: Option<TypeScriptTypesResolutionMode>,
    },
}

impl TryClone for TypeScriptReference {
    fn try_clone(&self, alloc: Global) -> Result<TypeScriptReference, AllocError> {
        match self {
            TypeScriptReference::Path(specifier) => {
                Ok(TypeScriptReference::Path(specifier.try_clone(alloc)?))
            }
            TypeScriptReference::Types {
                specifier,
                resolution_mode,
            } => Ok(TypeScriptReference::Types {
                specifier: specifier.try_clone(alloc)?,
                resolution_mode: *resolution_mode,
            }),
        }
    }
}
