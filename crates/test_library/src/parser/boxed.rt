use crate::parser::sources::{U, assert_parsed, counter, parsed, parsed_with, parser, url};
use deno_graph_analysis::ast::{
    CapturingModuleAnalyzer, DefaultParsedSourceStore, EsParser, ParsedSourceStore,
};
use deno_graph_source::tree::ParsedSource;
use std::process::Abort;

/// The text of a source, and whether the source has the mark of analyzed scopes.
type Expected = Option<(&'static str, bool)>;

fn assert_source(rt: &(impl AllocGlobal + Abort), found: Option<ParsedSource>, expected: Expected) {
    let Some((text, is_marked)) = expected else {
        assert!(rt; found.is_none());
        return;
    };
    let source = parsed_with(rt, text, is_marked);
    assert!(rt; matches!(&found, Some(found) if *found == source));
}

/// A call of a store under the specifier `U`. `Set` stores the source of a text.
#[derive(Clone, Copy)]
enum Call {
    Set(&'static str),
    Get,
    GetScopeAnalysis,
    Remove,
}

/// Calls of an empty store, and the source that each returns. The store is empty after the calls.
const CALLS: [(Call, Expected); 9] = [
    (Call::Get, None),
    (Call::GetScopeAnalysis, None),
    (Call::Set("a"), None),
    (Call::Set("b"), Some(("a", false))),
    (Call::Get, Some(("b", false))),
    (Call::GetScopeAnalysis, Some(("b", true))),
    (Call::Get, Some(("b", true))),
    (Call::Remove, Some(("b", true))),
    (Call::Remove, None),
];

fn call_store<S: ParsedSourceStore>(
    rt: &(impl AllocGlobal + Abort),
    store: &mut S,
    call: Call,
) -> Option<ParsedSource> {
    let u = url(rt, U);
    let returned = match call {
        Call::Set(text) => store.set_parsed_source(rt.alloc(), u, parsed(rt, text)),
        Call::Get => store.get_parsed_source(rt.alloc(), &u),
        Call::GetScopeAnalysis => store.get_scope_analysis_parsed_source(rt.alloc(), &u),
        Call::Remove => store.remove_parsed_source(rt.alloc(), &u),
    };
    returned.expect(rt, "memory")
}

fn assert_store<S: ParsedSourceStore>(rt: &(impl AllocGlobal + Abort), store: &mut S) {
    for (call, expected) in &CALLS {
        assert_source(rt, call_store(rt, store, *call), *expected);
    }
}

#[test]
fn stores_return_the_source_of_each_call(rt: HostRuntime) {
    assert_store(&rt, &mut DefaultParsedSourceStore::new(rt.alloc()));
    assert_store(&rt, &mut boxed_store(&rt));
    let store = DefaultParsedSourceStore::new(rt.alloc());
    let mut analyzer = CapturingModuleAnalyzer::new(parser(&rt, &counter(&rt)), store);
    assert_store(&rt, &mut analyzer);
}

fn boxed_store(rt: &(impl AllocGlobal + Abort)) -> Box<dyn ParsedSourceStore> {
    Box::new(rt.alloc(), DefaultParsedSourceStore::new(rt.alloc())).expect(rt, "memory")
}

#[test]
fn an_analyzer_of_boxes_parses_once(rt: HostRuntime) {
    let calls = counter(&rt);
    let table: Box<dyn EsParser> = Box::new(rt.alloc(), parser(&rt, &calls)).expect(&rt, "memory");
    let mut analyzer = CapturingModuleAnalyzer::new(table, boxed_store(&rt));
    for _ in 0..2 {
        assert_parsed(&rt, &mut analyzer, false);
        assert_eq!(rt; calls.get(), 1);
    }
}
