use crate::analysis::import_attributes::ImportAttributes;
use crate::analysis::specifier_with_range::SpecifierWithRange;
use deno_graph_base::text::PositionRange;
use deno_graph_base::values::{Text, TryClone};
use std::alloc::{AllocError, Global};

/// The syntax of a static dependency.
#[derive(Clone, Copy, Debug, PartialEq, Eq)]
pub enum StaticDependencyKind {
    /// `import .. from ".."` or `import ".."`.
    Import,
    /// `import defer * as name from ".."`.
    ImportDefer,
    /// `import source name from ".."`.
    ImportSource,
    /// `import type .. from ".."`, or the type `import("..")`.
    ImportType,
    /// `import name = require("..")`.
    ImportEquals,
    /// `export .. from ".."`.
    Export,
    /// `export type .. from ".."`.
    ExportType,
    /// `export import name = require("..")`.
    ExportEquals,
    /// `declare module ".." { .. }`, which may add to a module that exists.
    MaybeTsModuleAugmentation,
}

/// A dependency whose specifier is a string in the source.
#[derive(Debug, PartialEq, Eq, Drop)]
pub struct StaticDependencyDescriptor {
    pub kind: StaticDependencyKind,
    /// The types of the dependency, if a comment before it names them.
    pub types_specifier: Option<SpecifierWithRange>,
    /// The value of the string, with U+FFFD for each lone surrogate.
    pub specifier: Text,
    /// Range of the string with its quotes: lines and characters from zero.
    pub specifier_range: PositionRange,
    /// Whether the dependency is an import without names, as `import "..";`.
    pub is_side_effect: bool,
    /// The import attributes in the `with` or `assert` clause.
    pub import_attributes: ImportAttributes,
}

impl TryClone for StaticDependencyDescriptor {
    fn try_clone(&self, alloc: Global) -> Result<StaticDependencyDescriptor, AllocError> {
        Ok(StaticDependencyDescriptor {
            kind: self.kind,
            types_specifier: self.types_specifier.try_clone(alloc)?,
            specifier: self.specifier.try_clone(alloc)?,
            specifier_range: self.specifier_range,
            is_side_effect: self.is_side_effect,
            import_attributes: self.import_attributes.try_clone(alloc)?,
        })
    }
}
