//! The traits of each type.

use crate::facades::{analysis, info, source};
use deno_graph_source::values::TryClone;
use example_table_parser::TableParser;
use std::fmt::Debug;

/// Plain data, which is `Copy`.
pub struct Copied<T: Copy + Debug + Eq>(pub T);

/// Data that owns memory, which has `try_clone`.
pub struct Cloned<T: TryClone + Debug + Eq>(pub T);

/// Data that borrows or is moved, or an error: neither `Copy` nor `TryClone`.
pub struct Compared<T: Debug + Eq>(pub T);

/// A parser, store, analyzer or walk, which can only be dropped.
pub struct Dropped<T: Drop>(pub T);

/// Each type of `deno_graph_source`.
pub struct Sources {
    pub source_range: Copied<source::SourceRange>,
    pub position: Copied<source::Position>,
    pub position_range: Copied<source::PositionRange>,
    pub arg: Copied<source::Arg>,
    pub binary_op: Copied<source::BinaryOp>,
    pub callee: Copied<source::Callee>,
    pub comment_kind: Copied<source::CommentKind>,
    pub comment_place: Copied<source::CommentPlace>,
    pub comment_side: Copied<source::CommentSide>,
    pub import_phase: Copied<source::ImportPhase>,
    pub media_type: Copied<source::MediaType>,
    pub node_part: Copied<source::NodePart>,
    pub resolution_mode: Copied<source::ResolutionMode>,
    pub shape_rule: Copied<source::ShapeRule>,
    pub source_fault: Compared<source::SourceFault>,
    pub items: Cloned<source::Items<source::Arg>>,
    pub text: Cloned<source::Text>,
    pub text_map: Cloned<source::TextMap<source::Text>>,
    pub js_string: Cloned<source::JsString>,
    pub source_text_info: Cloned<source::SourceTextInfo>,
    pub comments: Cloned<source::Comments>,
    pub dependency_comment: Cloned<source::DependencyComment>,
    pub fault_place: Cloned<source::FaultPlace>,
    pub source_fault_place: Cloned<source::SourceFaultPlace>,
    pub kind: Cloned<source::Kind>,
    pub node: Cloned<source::Node>,
    pub parse_diagnostic: Cloned<source::ParseDiagnostic>,
    pub parse_error: Cloned<source::ParseError>,
    pub parsed_source: Cloned<source::ParsedSource>,
    pub program: Cloned<source::Program>,
    pub prop_key: Cloned<source::PropKey>,
    pub str_lit: Cloned<source::StrLit>,
}

/// Each type of `deno_graph_info`.
pub struct Infos<'a> {
    pub dynamic_dependency_kind: Copied<info::DynamicDependencyKind>,
    pub found: Copied<info::Match<'a>>,
    pub static_dependency_kind: Copied<info::StaticDependencyKind>,
    pub types_resolution_mode: Copied<info::TypeScriptTypesResolutionMode>,
    pub dependency: Cloned<info::DependencyDescriptor>,
    pub dynamic_argument: Cloned<info::DynamicArgument>,
    pub dynamic_dependency: Cloned<info::DynamicDependencyDescriptor>,
    pub dynamic_template_part: Cloned<info::DynamicTemplatePart>,
    pub import_attribute: Cloned<info::ImportAttribute>,
    pub import_attributes: Cloned<info::ImportAttributes>,
    pub jsdoc_import: Cloned<info::JsDocImportInfo>,
    pub module_info: Cloned<info::ModuleInfo>,
    pub specifier: Cloned<info::SpecifierWithRange>,
    pub static_dependency: Cloned<info::StaticDependencyDescriptor>,
    pub reference: Cloned<info::TypeScriptReference>,
    pub convert_fault: Compared<info::ConvertFault>,
    pub deno_types: Compared<info::DenoTypesPragmaMatch<'a>>,
    pub info_fault: Compared<info::InfoFault>,
}

/// Each type of `deno_graph_analysis` that is data.
pub struct Analyses<'a> {
    pub no_parse: Copied<analysis::NoParse>,
    pub diagnostic: Cloned<analysis::ParseDiagnostic>,
    pub analyze_error: Cloned<analysis::AnalyzeError>,
    pub answer: Cloned<analysis::Answer>,
    pub parse_error: Cloned<analysis::ParseError>,
    pub command: Compared<analysis::Command>,
    pub parse_options: Compared<analysis::ParseOptions<'a>>,
    pub dependency: Compared<analysis::DependencyDescriptor<'a>>,
    pub dynamic_argument: Compared<analysis::DynamicArgument<'a>>,
    pub dynamic_dependency: Compared<analysis::DynamicDependencyDescriptor<'a>>,
    pub dynamic_template_part: Compared<analysis::DynamicTemplatePart<'a>>,
    pub static_dependency: Compared<analysis::StaticDependencyDescriptor<'a>>,
    pub jsdoc_import: Compared<analysis::JsDocImport<'a>>,
    pub scan: Compared<analysis::Scan<'a>>,
}

/// Each other type of `deno_graph_analysis`.
pub struct Others<'a> {
    pub store: Dropped<analysis::DefaultParsedSourceStore>,
    pub capturing_parser: Dropped<
        analysis::CapturingEsParser<'a, TableParser, analysis::DefaultParsedSourceStore>,
    >,
    pub capturing_analyzer: Dropped<
        analysis::CapturingModuleAnalyzer<TableParser, analysis::DefaultParsedSourceStore>,
    >,
    pub parser_analyzer: Dropped<analysis::ParserModuleAnalyzer<'a, TableParser>>,
    pub walk: Dropped<analysis::Walk<'a>>,
}
