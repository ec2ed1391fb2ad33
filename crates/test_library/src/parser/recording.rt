//! Tests of which scope option boxed parsers and analyzers pass to their parser.

use crate::parser::sources::{assert_module, assert_parsed, counter, parser};
use deno_graph_analysis::ast::{
    CapturingModuleAnalyzer, DefaultParsedSourceStore, EsParser, ModuleAnalyzer, ParseError,
    ParseOptions, ParserModuleAnalyzer,
};
use deno_graph_source::tree::ParsedSource;
use example_table_parser::TableParser;
use std::alloc::Global;
use std::cell::Cell;
use std::process::Abort;
use std::rc::Rc;

/// A parser that records the scope option of its last call.
#[derive(Drop)]
struct RecordingParser<P: EsParser> {
    parser: P,
    last: Rc<Cell<Option<bool>>>,
}

impl<P: EsParser> EsParser for RecordingParser<P> {
    ghost parses = { λ it. P.parses it.parser };

    ghost count = { λ it. P.count it.parser };

    ghost is_sound = { λ it. P.is_sound it.parser };

    fn parse_program(
        &mut self,
        alloc: Global,
        options: ParseOptions<'_>,
    ) -> Result<ParsedSource, ParseError> {
        self.last.set(Some(options.scope_analysis));
        self.parser.parse_program(alloc, options)
    }
}

/// Returns a recording parser over the parser of the tests.
fn recording(
    rt: &(impl AllocGlobal + Abort),
    last: &Rc<Cell<Option<bool>>>,
) -> RecordingParser<TableParser> {
    RecordingParser {
        parser: parser(rt, &counter(rt)),
        last: last.clone().expect(rt, "a count that fits"),
    }
}

fn nothing_recorded(rt: &(impl AllocGlobal + Abort)) -> Rc<Cell<Option<bool>>> {
    Rc::new(rt.alloc(), Cell::new(None)).expect(rt, "memory")
}

#[test]
fn a_boxed_parser_gets_the_scope_option(rt: HostRuntime) {
    let last = nothing_recorded(&rt);
    let recording = Box::new(rt.alloc(), recording(&rt, &last)).expect(&rt, "memory");
    let mut boxed: Box<dyn EsParser> = recording;
    for scope_analysis in [true, false] {
        assert_parsed(&rt, &mut boxed, scope_analysis);
        assert_eq!(rt; last.get(), Some(scope_analysis));
    }
}

/// Asserts that the analyzer calls its parser without the scope option.
fn assert_no_scope_option<A: ModuleAnalyzer>(
    rt: &(impl AllocGlobal + Abort),
    analyzer: &mut A,
    last: &Cell<Option<bool>>,
) {
    last.set(None);
    assert_module(rt, analyzer);
    assert_eq!(rt; last.get(), Some(false));
}

#[test]
fn analyzers_parse_without_the_scope_option(rt: HostRuntime) {
    let last = nothing_recorded(&rt);
    let mut recording = recording(&rt, &last);
    let mut plain = ParserModuleAnalyzer::new(&mut recording);
    assert_no_scope_option(&rt, &mut plain, &last);
    let store = DefaultParsedSourceStore::new(rt.alloc());
    let mut capturing = CapturingModuleAnalyzer::new(recording, store);
    assert_no_scope_option(&rt, &mut capturing, &last);
}
