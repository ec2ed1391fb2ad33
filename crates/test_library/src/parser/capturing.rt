use crate::parser::sources::{U, assert_module, counter, parse, parsed, parsed_with, parser, url};
use deno_graph_analysis::ast::{
    CapturingEsParser, CapturingModuleAnalyzer, DefaultParsedSourceStore, ParseError,
    ParsedSourceStore, ParserModuleAnalyzer,
};
use deno_graph_source::tree::ParsedSource;
use std::process::Abort;

/// Returns a store with the source of `a` under `U`.
fn store_of_a(rt: &(impl AllocGlobal + Abort)) -> DefaultParsedSourceStore {
    let mut store = DefaultParsedSourceStore::new(rt.alloc());
    let before = store.set_parsed_source(rt.alloc(), url(rt, U), parsed(rt, "a"));
    assert!(rt; matches!(&before, Ok(None)));
    store
}

/// Parses a text with the scope option, over a store with the source of `a`. Asserts that this
/// source is marked afterwards.
fn parse_with_scopes(
    rt: &(impl AllocGlobal + Abort),
    text: &str,
) -> Result<ParsedSource, ParseError> {
    let calls = counter(rt);
    let mut table = parser(rt, &calls);
    let mut store = store_of_a(rt);
    let mut capturing = CapturingEsParser::new(&mut table, &mut store);
    let outcome = parse(rt, &mut capturing, text, true);
    assert_marked(rt, &store);
    assert_eq!(rt; calls.get(), u64::from(text != "a"));
    outcome
}

fn assert_marked(rt: &(impl AllocGlobal + Abort), store: &DefaultParsedSourceStore) {
    let found = store.get_parsed_source(rt.alloc(), &url(rt, U));
    let marked = parsed_with(rt, "a", true);
    assert!(rt; matches!(&found, Ok(Some(source)) if *source == marked));
}

#[test]
fn the_mark_is_set_if_the_text_is_the_same(rt: HostRuntime) {
    let outcome = parse_with_scopes(&rt, "a");
    let marked = parsed_with(&rt, "a", true);
    assert!(rt; matches!(&outcome, Ok(source) if *source == marked));
}

#[test]
fn the_mark_is_set_even_if_the_text_is_no_module(rt: HostRuntime) {
    let outcome = parse_with_scopes(&rt, "x");
    assert!(rt; matches!(outcome, Err(ParseError::Diagnostic(_))));
}

#[test]
fn an_analyzer_has_the_sources_of_its_capturing_parser(rt: HostRuntime) {
    let calls = counter(&rt);
    let store = DefaultParsedSourceStore::new(rt.alloc());
    let mut analyzer = CapturingModuleAnalyzer::new(parser(&rt, &calls), store);
    assert!(rt; parse(&rt, &mut analyzer.as_capturing_parser(), "a", false).is_ok());
    assert_module(&rt, &mut analyzer);
    assert_eq!(rt; calls.get(), 1);
}

#[test]
fn an_analyzer_without_a_store_parses_again(rt: HostRuntime) {
    let calls = counter(&rt);
    let mut table = parser(&rt, &calls);
    let mut plain = ParserModuleAnalyzer::new(&mut table);
    for count in 1..3 {
        assert_module(&rt, &mut plain);
        assert_eq!(rt; calls.get(), count);
    }
}
