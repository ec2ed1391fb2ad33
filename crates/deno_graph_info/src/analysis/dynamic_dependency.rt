ghost use Rattle.std.specs.Prelude.{◌≡◌};
ghost use Rattle.deno_graph_info.specs.DynamicDependency.{is_plain_import};

use crate::analysis::dynamic_argument::DynamicArgument;
use crate::analysis::import_attributes::ImportAttributes;
use crate::analysis::specifier_with_range::SpecifierWithRange;
use deno_graph_base::text::PositionRange;
use deno_graph_base::values::TryClone;
use std::alloc::{AllocError, Global};

/// The kind of a call that is a dynamic dependency.
#[derive(Clone, Copy, Debug, PartialEq, Eq)]
pub enum DynamicDependencyKind {
    /// `import(..)`.
    Import,
    /// `import.defer(..)`.
    ImportDefer,
    /// `import.source(..)`.
    ImportSource,
    /// `require(..)`.
    Require,
}

impl DynamicDependencyKind {
    /// Returns whether the call is `import(..)`.
    pub(crate) fn is_plain_import(self) -> bool
        ensures { result ≡ is_plain_import self }
    {
        matches!(self, DynamicDependencyKind::Import)
    }
}

impl Default for DynamicDependencyKind {
    ghost use Rattle.std.specs.Prelude.{◌≡◌};
    ghost use Rattle.deno_graph_info.specs.declared.analysis.dynamic_dependency.DynamicDependencyKind.TheVariants.{Import};

    ghost is_default = { λ kind. kind ≡ Import };

    fn default() -> DynamicDependencyKind {
        DynamicDependencyKind::Import
    }
}

/// A dependency by a call. The first argument is the specifier.
#[derive(Debug, PartialEq, Eq, Drop)]
pub struct DynamicDependencyDescriptor {
    pub kind: DynamicDependencyKind,
    /// The types of the dependency, if a comment before it names them.
    pub types_specifier: Option<SpecifierWithRange>,
    /// The first argument, as far as it is known.
    pub argument: DynamicArgument,
    /// Range of the first argument: lines and characters from zero.
    pub argument_range: PositionRange,
    /// The import attributes in the second argument.
    pub import_attributes: ImportAttributes,
}

impl TryClone for DynamicDependencyDescriptor {
    fn try_clone(&self, alloc: Global) -> Result<DynamicDependencyDescriptor, AllocError> {
        Ok(DynamicDependencyDescriptor {
            kind: self.kind,
            types_specifier: self.types_specifier.try_clone(alloc)?,
            argument: self.argument.try_clone(alloc)?,
            argument_range: self.argument_range,
            import_attributes: self.import_attributes.try_clone(alloc)?,
        })
    }
}
