//! The dependencies in a syntax tree.

pub use deno_graph_dep::{
    DependencyDescriptor, DynamicArgument, DynamicDependencyDescriptor, DynamicTemplatePart,
    StaticDependencyDescriptor, Walk, analyze_program_dependencies, argument_of,
    parse_dynamic_import_attributes, parse_import_attributes,
    parse_import_attributes_from_object_lit,
};
