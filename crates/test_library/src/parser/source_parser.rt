use crate::parser::sources::{parse, shared, url};
use deno_graph_analysis::ast::{
    CapturingModuleAnalyzer, DefaultParsedSourceStore, ModuleAnalyzer, ParseError,
    ParserModuleAnalyzer,
};
use deno_graph_info::analysis::DependencyDescriptor;
use deno_graph_source::tree::MediaType;
use modinfo_source_parser::SourceParser;
use std::process::Abort;

/// Asserts that an analyzer finds the import of a text.
fn assert_import(rt: &(impl AllocGlobal + Abort), analyzer: &mut impl ModuleAnalyzer) {
    let specifier = url(rt, "file:///a.ts");
    let text = shared(rt, "import \"./b.ts\";");
    let info = analyzer.analyze_sync(rt.alloc(), &specifier, text, MediaType::TypeScript);
    assert!(rt;
        matches!(&info, Ok(info) if matches!(info.dependencies.first(),
        Some(DependencyDescriptor::Static(import)) if import.specifier.as_str() == "./b.ts"))
    );
}

#[test]
fn an_analyzer_reads_texts_by_the_parser(rt: HostRuntime) {
    let mut parser = SourceParser;
    assert_import(&rt, &mut ParserModuleAnalyzer::new(&mut parser));
}

#[test]
fn a_capturing_analyzer_keeps_what_the_parser_read(rt: HostRuntime) {
    let store = DefaultParsedSourceStore::new(rt.alloc());
    assert_import(&rt, &mut CapturingModuleAnalyzer::new(SourceParser, store));
}

#[test]
fn the_parser_sets_the_mark_of_scopes(rt: HostRuntime) {
    let outcome = parse(&rt, &mut SourceParser, "import \"./b.ts\";", true);
    assert!(rt; matches!(&outcome, Ok(source) if source.has_scope_analysis()));
}

#[test]
fn a_syntax_error_is_a_diagnostic(rt: HostRuntime) {
    let outcome = parse(&rt, &mut SourceParser, "import {", false);
    assert!(rt; matches!(outcome, Err(ParseError::Diagnostic(_))));
}
