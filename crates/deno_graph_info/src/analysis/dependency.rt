ghost use Rattle.std.specs.Prelude.{◌≡◌, option_map};
ghost use Rattle.deno_graph_info.specs.Dependency.{static_of, dynamic_of, attributes_of};

use crate::analysis::dynamic_dependency::DynamicDependencyDescriptor;
use crate::analysis::import_attributes::ImportAttributes;
use crate::analysis::static_dependency::StaticDependencyDescriptor;
use deno_graph_base::values::TryClone;
use std::alloc::{AllocError, Global};

/// One dependency of a module.
#[derive(Debug, PartialEq, Eq, Drop)]
pub enum DependencyDescriptor {
    /// A declaration: the specifier is a string.
    Static(StaticDependencyDescriptor),
    /// A call: the specifier is any expression.
    Dynamic(DynamicDependencyDescriptor),
}

impl DependencyDescriptor {
    /// Returns the static dependency, or None for a dynamic one.
    pub fn as_static(&self) -> Option<&StaticDependencyDescriptor>
        ensures { option_map (λ d. d.now) result ≡ static_of self.now }
    {
        match self {
            DependencyDescriptor::Static(descriptor) => Some(descriptor),
            DependencyDescriptor::Dynamic(_) => None,
        }
    }

    /// Returns the dynamic dependency, or None for a static one.
    pub fn as_dynamic(&self) -> Option<&DynamicDependencyDescriptor>
        ensures { option_map (λ d. d.now) result ≡ dynamic_of self.now }
    {
        match self {
            DependencyDescriptor::Static(_) => None,
            DependencyDescriptor::Dynamic(descriptor) => Some(descriptor),
        }
    }

    /// Returns the import attributes of the dependency.
    pub fn import_attributes(&self) -> &ImportAttributes
        ensures { result.now ≡ attributes_of self.now }
    {
        match self {
            DependencyDescriptor::Static(descriptor) => &descriptor.import_attributes,
            DependencyDescriptor::Dynamic(descriptor) => &descriptor.import_attributes,
        }
    }
}

impl From<StaticDependencyDescriptor> for DependencyDescriptor {
    ghost use Rattle.std.specs.Prelude.{◌≡◌};
    ghost use Rattle.deno_graph_info.specs.declared.analysis.dependency.DependencyDescriptor.TheVariants.{Static};

    ghost from_gives = { λ descriptor dependency. dependency ≡ Static descriptor };

    fn from(descriptor: StaticDependencyDescriptor) -> DependencyDescriptor {
        DependencyDescriptor::Static(descriptor)
    }
}

impl From<DynamicDependencyDescriptor> for DependencyDescriptor {
    ghost use Rattle.std.specs.Prelude.{◌≡◌};
    ghost use Rattle.deno_graph_info.specs.declared.analysis.dependency.DependencyDescriptor.TheVariants.{Dynamic};

    ghost from_gives = { λ descriptor dependency. dependency ≡ Dynamic descriptor };

    fn from(descriptor: DynamicDependencyDescriptor) -> DependencyDescriptor {
        DependencyDescriptor::Dynamic(descriptor)
    }
}

impl TryClone for DependencyDescriptor {
    fn try_clone(&self, alloc: Global) -> Result<DependencyDescriptor, AllocError> {
        match self {
            DependencyDescriptor::Static(descriptor) => {
                Ok(DependencyDescriptor::Static(descriptor.try_clone(alloc)?))
            }
            DependencyDescriptor::Dynamic(descriptor) => {
                Ok(DependencyDescriptor::Dynamic(descriptor.try_clone(alloc)?))
            }
        }
    }
}
