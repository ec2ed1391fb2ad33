ghost use Rattle.std.specs.Prelude.{◌≡◌, IfOk};
ghost use Rattle.deno_graph_dep.specs.Descriptor.{dynamic_descriptor_seen, descriptor_seen, static_descriptor_seen};

use crate::argument::DynamicArgument;
use deno_graph_base::text::SourceRange;
use deno_graph_base::values::TryClone;
use deno_graph_info::analysis::{DynamicDependencyKind, ImportAttributes, StaticDependencyKind};
use deno_graph_source::tree::DependencyComment;
use std::alloc::{AllocError, Global};

/// The descriptor of a dependency whose specifier is a string literal, such as an import or an
/// export. Borrows from the tree.
#[derive(Debug, PartialEq, Eq, Drop)]
pub struct StaticDependencyDescriptor<'a> {
    pub kind: StaticDependencyKind,
    /// The comments that are filed as leading at the node's start, in the order of filing.
    pub leading_comments: &'a [DependencyComment],
    /// Range of the node, or of a module declaration's name, in bytes from zero.
    pub range: SourceRange,
    /// The specifier, with U+FFFD for each lone surrogate.
    pub specifier: &'a str,
    /// Range of the specifier with its quotes, in bytes from zero.
    pub specifier_range: SourceRange,
    /// Whether the node is an import declaration without specifiers, as `import "./load.js"`.
    pub is_side_effect: bool,
    pub import_attributes: ImportAttributes,
}

/// The descriptor of a dependency by a call of `import` or `require`. Borrows from the tree.
#[derive(Debug, PartialEq, Eq, Drop)]
pub struct DynamicDependencyDescriptor<'a> {
    pub kind: DynamicDependencyKind,
    /// The comments that are filed as leading at the call's start, in the order of filing.
    pub leading_comments: &'a [DependencyComment],
    /// Range of the call, in bytes from zero.
    pub range: SourceRange,
    /// What is known of the first argument.
    pub argument: DynamicArgument<'a>,
    /// Range of the first argument, in bytes from zero.
    pub argument_range: SourceRange,
    pub import_attributes: ImportAttributes,
}

/// The descriptor of a dependency of a module.
#[derive(Debug, PartialEq, Eq, Drop)]
pub enum DependencyDescriptor<'a> {
    Static(StaticDependencyDescriptor<'a>),
    Dynamic(DynamicDependencyDescriptor<'a>),
}

impl<'a> StaticDependencyDescriptor<'a> {
    /// Returns an equal descriptor that borrows from the same tree. Fails only if an allocation
    /// fails.
    pub fn try_clone(&self, alloc: Global) -> Result<StaticDependencyDescriptor<'a>, AllocError>
        ensures { IfOk result (λ copy.
            static_descriptor_seen copy ≡ static_descriptor_seen self.now) }
    {
        Ok(StaticDependencyDescriptor {
            kind: self.kind,
            leading_comments: self.leading_comments,
            range: self.range,
            specifier: self.specifier,
            specifier_range: self.specifier_range,
            is_side_effect: self.is_side_effect,
            import_attributes: self.import_attributes.try_clone(alloc)?,
        })
    }
}

impl<'a> DynamicDependencyDescriptor<'a> {
    /// Returns an equal descriptor that borrows from the same tree. Fails only if an allocation
    /// fails.
    pub fn try_clone(&self, alloc: Global) -> Result<DynamicDependencyDescriptor<'a>, AllocError>
        ensures { IfOk result (λ copy.
            dynamic_descriptor_seen copy ≡ dynamic_descriptor_seen self.now) }
    {
        Ok(DynamicDependencyDescriptor {
            kind: self.kind,
            leading_comments: self.leading_comments,
            range: self.range,
            argument: self.argument.try_clone(alloc)?,
            argument_range: self.argument_range,
            import_attributes: self.import_attributes.try_clone(alloc)?,
        })
    }
}

impl<'a> DependencyDescriptor<'a> {
    /// Returns an equal descriptor that borrows from the same tree. Fails only if an allocation
    /// fails.
    pub fn try_clone(&self, alloc: Global) -> Result<DependencyDescriptor<'a>, AllocError>
        ensures { IfOk result (λ copy. descriptor_seen copy ≡ descriptor_seen self.now) }
    {
        match self {
            DependencyDescriptor::Static(descriptor) => Ok(descriptor.try_clone(alloc)?.into()),
            DependencyDescriptor::Dynamic(descriptor) => Ok(descriptor.try_clone(alloc)?.into()),
        }
    }
}

impl<'a> From<StaticDependencyDescriptor<'a>> for DependencyDescriptor<'a> {
    ghost use Rattle.deno_graph_dep.specs.declared.descriptor.DependencyDescriptor.TheVariants.{Static};

    ghost from_gives = { λ descriptor made. made ≡ Static descriptor };

    fn from(descriptor: StaticDependencyDescriptor<'a>) -> DependencyDescriptor<'a> {
        DependencyDescriptor::Static(descriptor)
    }
}

impl<'a> From<DynamicDependencyDescriptor<'a>> for DependencyDescriptor<'a> {
    ghost use Rattle.deno_graph_dep.specs.declared.descriptor.DependencyDescriptor.TheVariants.{Dynamic};

    ghost from_gives = { λ descriptor made. made ≡ Dynamic descriptor };

    fn from(descriptor: DynamicDependencyDescriptor<'a>) -> DependencyDescriptor<'a> {
        DependencyDescriptor::Dynamic(descriptor)
    }
}
