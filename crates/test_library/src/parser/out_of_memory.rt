//! Tests of calls in which the parser or the store is out of memory once.

use crate::parser::failing::{FailingParser, FailingStore};
use crate::parser::sources::{
    Plan, U, V, analyze, commands, counter, parse, parsed, parser, shared, url,
};
use deno_graph_analysis::ast::{
    AnalyzeError, CapturingModuleAnalyzer, DefaultParsedSourceStore, EsParser, ModuleAnalyzer,
    ParseError, ParsedSourceStore, run,
};
use deno_graph_source::tree::MediaType;
use example_table_parser::TableParser;
use std::cell::Cell;
use std::process::Abort;
use std::rc::Rc;

/// The calls that parse a text and store its source.
#[derive(Clone, Copy, Debug)]
enum Call {
    CapturingParser,
    ParseProgram,
    AnalyzeSync,
    Run,
}

const CALLS: [Call; 4] = [
    Call::CapturingParser,
    Call::ParseProgram,
    Call::AnalyzeSync,
    Call::Run,
];

/// A text that is parsed, whether the call is out of memory, and the text of the source that is
/// stored after the call.
type Step = (&'static str, bool, Option<&'static str>);

/// The first call for `a` stores nothing, the second stores `a`.
const FIRST_FAILS: [Step; 2] = [("a", true, None), ("a", false, Some("a"))];

/// The call for `a` stores `a`, the first call for `b` leaves `a`, the second stores `b`.
const SECOND_FAILS: [Step; 3] = [
    ("a", false, Some("a")),
    ("b", true, Some("a")),
    ("b", false, Some("b")),
];

/// Returns whether the call is out of memory.
fn is_out_of_memory<P: EsParser, S: ParsedSourceStore>(
    rt: &(impl AllocGlobal + Abort),
    analyzer: &mut CapturingModuleAnalyzer<P, S>,
    call: Call,
    text: &'static str,
) -> bool {
    match call {
        Call::CapturingParser => is_parse_out_of_memory(
            rt,
            &mut analyzer.as_capturing_parser(),
            text,
        ),
        Call::ParseProgram => is_parse_out_of_memory(rt, analyzer, text),
        Call::AnalyzeSync => is_analysis_out_of_memory(rt, analyzer, text),
        Call::Run => is_run_out_of_memory(rt, analyzer, &[analyze(U, "a"), analyze(U, text)]),
    }
}

fn is_parse_out_of_memory<P: EsParser>(
    rt: &(impl AllocGlobal + Abort),
    parser: &mut P,
    text: &str,
) -> bool {
    let outcome = parse(rt, parser, text, false);
    matches!(outcome, Err(ParseError::OutOfMemory))
}

fn is_analysis_out_of_memory<A: ModuleAnalyzer>(
    rt: &(impl AllocGlobal + Abort),
    analyzer: &mut A,
    text: &str,
) -> bool {
    let (specifier, source) = (url(rt, U), shared(rt, text));
    let outcome = analyzer.analyze_sync(rt.alloc(), &specifier, source, MediaType::JavaScript);
    matches!(outcome, Err(AnalyzeError::OutOfMemory))
}

fn is_run_out_of_memory<P: EsParser, S: ParsedSourceStore>(
    rt: &(impl AllocGlobal + Abort),
    analyzer: &mut CapturingModuleAnalyzer<P, S>,
    plans: &[Plan],
) -> bool {
    let commands = commands(rt, plans);
    run(rt.alloc(), analyzer, &commands).is_err()
}

fn assert_steps<P: EsParser, S: ParsedSourceStore>(
    rt: &(impl AllocGlobal + Abort),
    analyzer: &mut CapturingModuleAnalyzer<P, S>,
    call: Call,
    steps: &[Step],
) {
    for (text, failing, stored) in steps {
        let found = is_out_of_memory(rt, analyzer, call, text);
        assert_eq!(rt; found, *failing, "{call:?} of {text}");
        assert!(rt; is_stored(rt, analyzer, U, *stored), "{call:?} of {text}");
    }
}

/// Returns whether the source of this text is stored under the specifier, or no source if there is no text.
fn is_stored<S: ParsedSourceStore>(
    rt: &(impl AllocGlobal + Abort),
    store: &S,
    specifier: &str,
    text: Option<&str>,
) -> bool {
    let found = store
        .get_parsed_source(rt.alloc(), &url(rt, specifier))
        .expect(rt, "memory");
    let expected = text.map(|text| parsed(rt, text));
    found == expected
}

fn failing_parser(
    rt: &(impl AllocGlobal + Abort),
    calls: &Rc<Cell<u64>>,
) -> FailingParser<TableParser> {
    FailingParser {
        parser: parser(rt, calls),
        calls: 0,
    }
}

#[test]
fn a_parser_is_out_of_memory_once(rt: HostRuntime) {
    for call in &CALLS {
        let calls = counter(&rt);
        let store = DefaultParsedSourceStore::new(rt.alloc());
        let mut analyzer = CapturingModuleAnalyzer::new(failing_parser(&rt, &calls), store);
        assert_steps(&rt, &mut analyzer, *call, &SECOND_FAILS);
        assert_eq!(rt; calls.get(), 2);
    }
}

/// The command before the failed command has run, and the failed command stores nothing.
#[test]
fn a_run_stops_when_the_parser_is_out_of_memory(rt: HostRuntime) {
    let store = DefaultParsedSourceStore::new(rt.alloc());
    let parser = failing_parser(&rt, &counter(&rt));
    let mut analyzer = CapturingModuleAnalyzer::new(parser, store);
    assert!(rt; is_run_out_of_memory(&rt, &mut analyzer, &[analyze(U, "a"), analyze(V, "a")]));
    assert!(rt; is_stored(&rt, &analyzer, U, Some("a")));
    assert!(rt; is_stored(&rt, &analyzer, V, None));
}

/// Asserts the steps and the number of parses of each call, over a store that fails for one source.
fn assert_store(rt: &(impl AllocGlobal + Abort), failing: u64, steps: &[Step], parses: u64) {
    for call in &CALLS {
        let calls = counter(rt);
        let store = FailingStore {
            store: DefaultParsedSourceStore::new(rt.alloc()),
            sets: 0,
            failing,
        };
        let mut analyzer = CapturingModuleAnalyzer::new(parser(rt, &calls), store);
        assert_steps(rt, &mut analyzer, *call, steps);
        assert_eq!(rt; calls.get(), parses);
    }
}

#[test]
fn stores_are_out_of_memory_once(rt: HostRuntime) {
    assert_store(&rt, 1, &FIRST_FAILS, 2);
    assert_store(&rt, 2, &SECOND_FAILS, 3);
}
