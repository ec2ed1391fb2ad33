//! The analysis of a module; parsers, stores, analyzers and runs of commands.

pub use deno_graph_analyzer::analyzer::{AnalyzeError, ModuleAnalyzer, ParserModuleAnalyzer};
pub use deno_graph_analyzer::capturing::{CapturingEsParser, CapturingModuleAnalyzer};
pub use deno_graph_analyzer::parser::{EsParser, ParseDiagnostic, ParseError, ParseOptions};
pub use deno_graph_analyzer::run::{Answer, Command, run};
pub use deno_graph_analyzer::store::{DefaultParsedSourceStore, ParsedSourceStore};
pub use deno_graph_module_info::{analyze_ts_or_deno_types, module_info, module_info_from_program};
