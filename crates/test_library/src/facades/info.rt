//! Each item of `deno_graph_info`.

pub use deno_graph_info::analysis::laws::{conversion_has_one_outcome, conversion_is_done_once};
pub use deno_graph_info::analysis::{
    ConvertFault, DenoTypesPragmaMatch, DependencyDescriptor, DynamicArgument,
    DynamicDependencyDescriptor, DynamicDependencyKind, DynamicTemplatePart, ImportAttribute,
    ImportAttributes, InfoFault, JsDocImportInfo, Match, ModuleInfo, SpecifierWithRange,
    StaticDependencyDescriptor, StaticDependencyKind, TypeScriptReference,
    TypeScriptTypesResolutionMode, converted_text, find_deno_types, find_jsx_import_source,
    find_jsx_import_source_types, find_path_reference, find_resolution_mode,
    find_source_mapping_url, find_ts_self_types, find_ts_types, find_types_reference,
    is_comment_triple_slash_reference, module_graph_1_to_2,
};
pub use deno_graph_info::reach::reach;
