//! A parser with a promise, in the fewest lines: it returns the sources of a table. A real parser has a
//! grammar in place of the table.
#![tactic(auto)]

ghost use Rattle.std.specs.Prelude.{◌≡◌, IfOk, IfErr};
ghost use Rattle.std.specs.Option.{option_copied};
ghost use Rattle.deno_graph_analyzer.specs.Parsing.{input_of_options, input_of, outcome_of};
ghost use Rattle.example_table_parser.specs.Table.{source_with, unknown_source};
ghost use Rattle.example_table_parser.specs.TableParser.{sources_in, call_count};

use deno_graph_analyzer::parser::{EsParser, ParseDiagnostic, ParseError, ParseOptions};
use deno_graph_source::text::Position;
use deno_graph_source::tree::ParsedSource;
use deno_graph_source::values::{Text, TryClone};
use std::alloc::{AllocError, Global};
use std::cell::Cell;
use std::rc::Rc;

/// A parser of a table of sources. Any other input has a diagnostic.
#[derive(Drop)]
pub struct TableParser {
    sources: Vec<ParsedSource>,
    count: u64,
    calls: Rc<Cell<u64>>,
}

impl TableParser {
    /// Returns a parser of `sources`, which also counts its calls in `calls`.
    pub fn new(sources: Vec<ParsedSource>, calls: Rc<Cell<u64>>) -> TableParser
        ensures sources { sources_in result ≡ sources.items }
        ensures count { call_count result ≡ 0 }
    {
        TableParser {
            sources,
            count: 0,
            calls,
        }
    }
}

impl EsParser for TableParser {
    ghost use Rattle.example_table_parser.specs.Table.{outcome_in};

    ghost parses = { λ it. outcome_in (sources_in it) };

    ghost count = { call_count };

    ghost is_sound = { λ it. Unit {0} };

    fn parse_program(
        &mut self,
        alloc: Global,
        options: ParseOptions<'_>,
    ) -> Result<ParsedSource, ParseError> {
        self.calls.set(self.calls.get().saturating_add(1));
        self.count = self.count.saturating_add(1);
        match find(&self.sources, &options) {
            Some(source) => parsed(alloc, source, options),
            None => Err(ParseError::Diagnostic(diagnostic(alloc)?)),
        }
    }
}

/// Returns the first source with the specifier, the text and the media type of the options.
#[tactic(auto, unfolding(deno_graph_analyzer::specs::Parsing::specifier_text))]
fn find<'a>(sources: &'a [ParsedSource], options: &ParseOptions<'_>) -> Option<&'a ParsedSource>
    ensures { option_copied result ≡ source_with (input_of_options options.now) sources.now }
{
    sources.iter().find(|source| {
        source.specifier() == options.specifier
            && source.text().as_str() == options.source.as_str()
            && source.media_type() == options.media_type
    })
}

/// Returns the tree and comments of a source of the table as the source of the options. They fit
/// the text, so the only error is out of memory.
fn parsed(
    alloc: Global,
    source: &ParsedSource,
    options: ParseOptions<'_>,
) -> Result<ParsedSource, ParseError>
    ensures input_and_outcome { IfOk result (λ parsed. (input_of parsed ≡ input_of_options options.entry)
        × (outcome_of parsed ≡ outcome_of source.now)) }
    ensures error { IfErr result (λ error. error ≡ ParseError.OutOfMemory) }
{
    let made = ParsedSource::new(
        alloc,
        options.specifier.clone()?,
        options.source,
        options.media_type,
        source.program().try_clone(alloc)?,
        source.comments().try_clone(alloc)?,
        options.scope_analysis,
    );
    match made {
        Ok(source) => Ok(source),
        Err(_fault) => Err(ParseError::OutOfMemory),
    }
}

fn diagnostic(alloc: Global) -> Result<ParseDiagnostic, AllocError>
    ensures { IfOk result (λ diagnostic. diagnostic ≡ unknown_source) }
{
    Ok(ParseDiagnostic {
        message: Text::from_str(alloc, "unknown source")?,
        position: Position::zeroed(),
    })
}
