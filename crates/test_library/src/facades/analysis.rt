//! Each item of `deno_graph_analysis`.

pub use deno_graph_analysis::ast::{
    AnalyzeError, Answer, CapturingEsParser, CapturingModuleAnalyzer, Command,
    DefaultParsedSourceStore, EsParser, ModuleAnalyzer, ParseDiagnostic, ParseError, ParseOptions,
    ParsedSourceStore, ParserModuleAnalyzer, analyze_ts_or_deno_types, module_info,
    module_info_from_program, run,
};
pub use deno_graph_analysis::dep::{
    DependencyDescriptor, DynamicArgument, DynamicDependencyDescriptor, DynamicTemplatePart,
    StaticDependencyDescriptor, Walk, analyze_program_dependencies, argument_of,
    parse_dynamic_import_attributes, parse_import_attributes,
    parse_import_attributes_from_object_lit,
};
pub use deno_graph_analysis::jsdoc::{
    JsDocImport, NoParse, Scan, jsdoc_imports, parse_jsdoc_dynamic_import, parse_jsdoc_import_decl,
    scan,
};
