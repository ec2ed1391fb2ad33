//! The dependencies of a module: which nodes of the syntax tree are dependencies, the walk over
//! these nodes, and their descriptors.
#![tactic(auto)]

pub mod argument;
pub mod attributes;
mod collector;
mod dependency_kind;
pub mod descriptor;
mod descriptor_of;
pub mod is_dependency;
pub mod laws;
mod stack;
pub mod walk;

pub use argument::{DynamicArgument, DynamicTemplatePart, argument_of};
pub use attributes::{
    parse_dynamic_import_attributes, parse_import_attributes,
    parse_import_attributes_from_object_lit,
};
pub use collector::analyze_program_dependencies;
pub use descriptor::{
    DependencyDescriptor, DynamicDependencyDescriptor, StaticDependencyDescriptor,
};
pub use walk::Walk;
