//! The sources of the tests, each a module with one import: `a` and `b` under `U`, and `a` under `V` as
//! JavaScript and as TypeScript. The parser of the tests returns a diagnostic for any other text.

use deno_graph_analysis::ast::{Command, EsParser, ModuleAnalyzer, ParseError, ParseOptions};
use deno_graph_source::text::{JsString, SourceRange};
use deno_graph_source::tree::{
    Comments, ImportPhase, Kind, MediaType, Node, ParsedSource, Program, StrLit,
};
use deno_graph_source::values::Items;
use example_table_parser::TableParser;
use std::cell::Cell;
use std::process::Abort;
use std::rc::{Rc, RcStr};
use url::Url;

pub const U: &str = "file:///u.js";

pub const V: &str = "file:///v.js";

/// Returns the source of a module with these items.
pub fn source_with(
    rt: &(impl AllocGlobal + Abort),
    specifier: &str,
    text: &str,
    media_type: MediaType,
    body: Items<Node>,
) -> ParsedSource {
    let program = Program {
        range: SourceRange::new(0, text.len()),
        body,
        has_shebang: false,
    };
    ParsedSource::new(
        rt.alloc(),
        url(rt, specifier),
        shared(rt, text),
        media_type,
        program,
        Comments::new(rt.alloc()),
        false,
    )
    .expect(rt, "the source is valid")
}

pub fn url(rt: &(impl AllocGlobal + Abort), specifier: &str) -> Url {
    Url::parse(rt.alloc(), specifier).expect(rt, "it is a URL")
}

pub fn shared(rt: &(impl AllocGlobal + Abort), text: &str) -> RcStr {
    RcStr::from_str(rt.alloc(), text).expect(rt, "memory")
}

/// Returns a counter for the calls of a parser.
pub fn counter(rt: &(impl AllocGlobal + Abort)) -> Rc<Cell<u64>> {
    Rc::new(rt.alloc(), Cell::new(0)).expect(rt, "memory")
}

/// Returns the items of a module with one import.
fn import(rt: &(impl AllocGlobal + Abort), text: &str, imported: &str) -> Items<Node> {
    let range = SourceRange::new(0, text.len());
    let value = JsString::from_str(rt.alloc(), imported).expect(rt, "memory");
    let kind = Kind::ImportDecl {
        type_only: false,
        phase: ImportPhase::Evaluation,
        src: StrLit::new(value, range),
        has_specifiers: false,
        has_with: false,
    };
    Items::from_item(rt.alloc(), Node::new(rt.alloc(), range, kind)).expect(rt, "memory")
}

/// Returns the source of a module with one import.
fn importing(
    rt: &(impl AllocGlobal + Abort),
    specifier: &str,
    text: &str,
    media_type: MediaType,
    imported: &str,
) -> ParsedSource {
    let body = import(rt, text, imported);
    source_with(rt, specifier, text, media_type, body)
}

/// Returns the source of a text under `U` as JavaScript, which imports the text as a specifier.
pub fn parsed(rt: &(impl AllocGlobal + Abort), text: &str) -> ParsedSource {
    importing(rt, U, text, MediaType::JavaScript, text)
}

/// Like `parsed`, with the mark of analyzed scopes if `scope_analysis` is true.
pub fn parsed_with(
    rt: &(impl AllocGlobal + Abort),
    text: &str,
    scope_analysis: bool,
) -> ParsedSource {
    let source = parsed(rt, text);
    if scope_analysis {
        source.into_with_scope_analysis()
    } else {
        source
    }
}

/// Returns a parser of the four sources, which counts its calls in `calls`.
pub fn parser(rt: &(impl AllocGlobal + Abort), calls: &Rc<Cell<u64>>) -> TableParser {
    let mut sources = Vec::new(rt.alloc());
    for (specifier, text, media_type, imported) in [
        (U, "a", MediaType::JavaScript, "a"),
        (U, "b", MediaType::JavaScript, "b"),
        (V, "a", MediaType::JavaScript, "v"),
        (V, "a", MediaType::TypeScript, "t"),
    ] {
        let source = importing(rt, specifier, text, media_type, imported);
        sources.push(source).expect(rt, "memory");
    }
    TableParser::new(sources, calls.clone().expect(rt, "a count that fits"))
}

/// Parses a text under `U` as JavaScript.
pub fn parse<P: EsParser>(
    rt: &(impl AllocGlobal + Abort),
    parser: &mut P,
    text: &str,
    scope_analysis: bool,
) -> Result<ParsedSource, ParseError> {
    let specifier = url(rt, U);
    let options = ParseOptions {
        specifier: &specifier,
        source: shared(rt, text),
        media_type: MediaType::JavaScript,
        scope_analysis,
    };
    parser.parse_program(rt.alloc(), options)
}

/// Asserts that the parser returns the source of `a`, with the mark if `scope_analysis` is true.
pub fn assert_parsed<P: EsParser>(
    rt: &(impl AllocGlobal + Abort),
    parser: &mut P,
    scope_analysis: bool,
) {
    let outcome = parse(rt, parser, "a", scope_analysis);
    let expected = parsed_with(rt, "a", scope_analysis);
    assert!(rt; matches!(&outcome, Ok(source) if *source == expected));
}

/// Asserts that the info of `a` is that of a module, not of a script.
pub fn assert_module<A: ModuleAnalyzer>(rt: &(impl AllocGlobal + Abort), analyzer: &mut A) {
    let (specifier, source) = (url(rt, U), shared(rt, "a"));
    let info = analyzer.analyze_sync(rt.alloc(), &specifier, source, MediaType::JavaScript);
    assert!(rt; matches!(&info, Ok(info) if !info.is_script));
}

/// The data of a command: specifier, text and media type.
#[derive(Clone, Copy)]
pub enum Plan {
    Analyze(&'static str, &'static str, MediaType),
    /// Specifier, text and scope option.
    Parse(&'static str, &'static str, bool),
    Remove(&'static str),
}

/// Returns the data of an `Analyze` of JavaScript.
pub fn analyze(specifier: &'static str, text: &'static str) -> Plan {
    Plan::Analyze(specifier, text, MediaType::JavaScript)
}

impl Plan {
    pub fn command(self, rt: &(impl AllocGlobal + Abort)) -> Command {
        match self {
            Plan::Analyze(specifier, text, media_type) => Command::Analyze {
                specifier: url(rt, specifier),
                source: shared(rt, text),
                media_type,
            },
            Plan::Parse(specifier, text, scope_analysis) => Command::Parse {
                specifier: url(rt, specifier),
                source: shared(rt, text),
                media_type: MediaType::JavaScript,
                scope_analysis,
            },
            Plan::Remove(specifier) => Command::Remove {
                specifier: url(rt, specifier),
            },
        }
    }
}

pub fn commands(rt: &(impl AllocGlobal + Abort), plans: &[Plan]) -> Vec<Command> {
    let mut commands = Vec::new(rt.alloc());
    for plan in plans {
        commands.push(plan.command(rt)).expect(rt, "memory");
    }
    commands
}
