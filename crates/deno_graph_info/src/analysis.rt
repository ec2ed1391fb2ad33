//! The result of analyzing a module, and its JSON.

pub mod dependency;
pub mod dynamic_argument;
pub mod dynamic_dependency;
pub mod fault;
pub mod import_attributes;
pub mod js_doc_import_info;
pub mod module_info;
pub mod specifier_with_range;
pub mod static_dependency;
pub mod type_script_reference;

pub use crate::conversion::{ConvertFault, converted_text, laws, module_graph_1_to_2};
pub use deno_graph_base::values::TypeScriptTypesResolutionMode;
pub use deno_graph_pragmas::finders::{
    DenoTypesPragmaMatch, Match, find_deno_types, find_jsx_import_source,
    find_jsx_import_source_types, find_path_reference, find_resolution_mode,
    find_source_mapping_url, find_ts_self_types, find_ts_types, find_types_reference,
    is_comment_triple_slash_reference,
};
pub use dependency::DependencyDescriptor;
pub use dynamic_argument::{DynamicArgument, DynamicTemplatePart};
pub use dynamic_dependency::{DynamicDependencyDescriptor, DynamicDependencyKind};
pub use fault::InfoFault;
pub use import_attributes::{ImportAttribute, ImportAttributes};
pub use js_doc_import_info::JsDocImportInfo;
pub use module_info::ModuleInfo;
pub use specifier_with_range::SpecifierWithRange;
pub use static_dependency::{StaticDependencyDescriptor, StaticDependencyKind};
pub use type_script_reference::TypeScriptReference;
