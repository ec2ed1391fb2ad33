//! The second way: an own parser, an own store for the parsed sources, and an own analyzer over both.

mod analyzer;
mod parser;
mod store;

use crate::by_parser::analyzer::WithoutJson;
use crate::by_parser::parser::ImportParser;
use crate::by_parser::store::CountingStore;
use anyhow::Result;
use deno_graph_analysis::ast::{
    AnalyzeError, CapturingModuleAnalyzer, DefaultParsedSourceStore, ModuleAnalyzer,
};
use deno_graph_source::tree::MediaType;
use std::alloc::{AllocError, Global};
use std::rc::RcStr;
use url::Url;

/// Three texts of one module: an import, the same import, which is then in the store, and a text with a
/// syntax error.
const TEXTS: [&str; 3] = ["import \"./b.ts\";", "import \"./b.ts\";", "import ./b.ts;"];

/// Prints the result for each text.
pub fn print_results(rt: &(impl AllocGlobal + Print)) -> Result<()> {
    let alloc = rt.alloc();
    let store = CountingStore::new(DefaultParsedSourceStore::new(alloc));
    let mut analyzer = WithoutJson::new(CapturingModuleAnalyzer::new(ImportParser, store));
    for text in &TEXTS {
        let result = info_json(alloc, &mut analyzer, text)?;
        println!(rt; "{result}")?;
    }
    Ok(())
}

/// Returns the info of a module as JSON, or the parser's message if the text is no module.
fn info_json<A: ModuleAnalyzer>(alloc: Global, analyzer: &mut A, text: &str) -> Result<String> {
    let specifier = Url::parse(alloc, "file:///a.ts")?;
    let source = RcStr::from_str(alloc, text)?;
    let printed = match analyzer.analyze_sync(alloc, &specifier, source, MediaType::TypeScript) {
        Ok(info) => info.to_json(alloc),
        Err(AnalyzeError::Parse(diagnostic)) => {
            String::from_str(alloc, diagnostic.message.as_str())
        }
        Err(AnalyzeError::OutOfMemory) => Err(AllocError),
    };
    Ok(printed?)
}
