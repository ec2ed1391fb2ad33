//! `set_parsed_source`, and `parse_program` of a parser over a store.

use crate::case_error::CaseError;
use crate::failed_allocations::outcome::Outcome;
use crate::failed_allocations::sources::{U, V, options, source, table, url};
use deno_graph_analysis::ast::{
    CapturingEsParser, DefaultParsedSourceStore, EsParser, ParseError, ParsedSourceStore,
};
use deno_graph_source::tree::ParsedSource;
use example_table_parser::TableParser;
use std::alloc::{AllocError, Global};
use url::Url;

/// A parser and a store. The store has the first source, that of `a`, under `U`, and no source
/// under `V`.
#[derive(Drop)]
struct Tested {
    v: Url,
    first: ParsedSource,
    second: ParsedSource,
    table: TableParser,
    store: DefaultParsedSourceStore,
}

impl Tested {
    /// The second source is that of `b`, under `specifier`.
    fn new(alloc: Global, specifier: &str) -> Result<Tested, CaseError> {
        Ok(Tested {
            v: url(alloc, V)?,
            first: source(alloc, U, "a")?,
            second: source(alloc, specifier, "b")?,
            table: table(alloc)?,
            store: DefaultParsedSourceStore::new(alloc),
        })
    }

    fn store_first(&mut self, alloc: Global) -> Result<(), CaseError> {
        drop(self.set(alloc, U, "a")??);
        Ok(())
    }

    /// Stores the source of a text.
    fn set(
        &mut self,
        alloc: Global,
        specifier: &str,
        text: &str,
    ) -> Result<Result<Option<ParsedSource>, AllocError>, CaseError> {
        let key = url(alloc, specifier)?;
        let source = source(alloc, specifier, text)?;
        Ok(self.store.set_parsed_source(alloc, key, source))
    }

    /// Parses `b` under `U` by a `CapturingEsParser` over the store.
    fn parse(
        &mut self,
        alloc: Global,
        scope_analysis: bool,
    ) -> Result<Result<ParsedSource, ParseError>, AllocError> {
        let options = options(alloc, self.first.specifier(), "b", scope_analysis)?;
        let mut parser = CapturingEsParser::new(&mut self.table, &mut self.store);
        Ok(parser.parse_program(alloc, options))
    }

    /// Returns whether the store has these sources under `U` and `V`. Allocates nothing.
    fn holds(
        &self,
        alloc: Global,
        under_u: &ParsedSource,
        under_v: Option<&ParsedSource>,
    ) -> Result<bool, AllocError> {
        Ok(
            self.has(alloc, self.first.specifier(), Some(under_u))?
                && self.has(alloc, &self.v, under_v)?,
        )
    }

    fn has(
        &self,
        alloc: Global,
        specifier: &Url,
        source: Option<&ParsedSource>,
    ) -> Result<bool, AllocError> {
        let found = self.store.get_parsed_source(alloc, specifier)?;
        Ok(found.as_ref() == source)
    }

    /// Returns the source that has to be under `U` after a call with this outcome.
    fn stored(&self, outcome: Outcome) -> &ParsedSource {
        if outcome == Outcome::Returned {
            &self.second
        } else {
            &self.first
        }
    }
}

/// Checks the result of `set_parsed_source`, which returns the source that was there before.
fn outcome_of_set(
    set: Result<Option<ParsedSource>, AllocError>,
    before: Option<&ParsedSource>,
) -> Result<Outcome, CaseError> {
    match set {
        Ok(former) => {
            Outcome::Returned.provided(former.as_ref() == before, "another source was there")
        }
        Err(_) => Ok(Outcome::OutOfMemory),
    }
}

/// Stores the second source under `V`. If that fails, only the first source is there.
pub fn set_another(alloc: Global) -> Result<Outcome, CaseError> {
    let mut tested = Tested::new(alloc, V)?;
    set_beside(alloc, &mut tested)
}

fn set_beside(alloc: Global, tested: &mut Tested) -> Result<Outcome, CaseError> {
    tested.store_first(alloc)?;
    let outcome = outcome_of_set(tested.set(alloc, V, "b")?, None)?;
    let stored = (outcome == Outcome::Returned).then_some(&tested.second);
    outcome.provided(
        tested.holds(alloc, &tested.first, stored)?,
        "the first source is another, or the second",
    )
}

/// Stores the second source under `U`. If that fails, the first source is still there.
pub fn set_again(alloc: Global) -> Result<Outcome, CaseError> {
    let mut tested = Tested::new(alloc, U)?;
    set_in_place(alloc, &mut tested)
}

fn set_in_place(alloc: Global, tested: &mut Tested) -> Result<Outcome, CaseError> {
    tested.store_first(alloc)?;
    let set = tested.set(alloc, U, "b")?;
    let outcome = outcome_of_set(set, Some(&tested.first))?;
    outcome.provided(
        tested.holds(alloc, tested.stored(outcome), None)?,
        "the source was lost, or another is there",
    )
}

/// Checks the result of a parse of `b`.
fn outcome_of_parse(
    answer: Result<ParsedSource, ParseError>,
    expected: &ParsedSource,
) -> Result<Outcome, CaseError> {
    match answer {
        Ok(answer) => {
            Outcome::Returned.provided(answer == *expected, "the parser's result is another")
        }
        Err(ParseError::OutOfMemory) => Ok(Outcome::OutOfMemory),
        Err(ParseError::Diagnostic(_)) => Err(CaseError::Unexpected("a text is not parsed")),
    }
}

/// Parses `b` over the store. If that fails, the first source is still there.
pub fn parse(alloc: Global) -> Result<Outcome, CaseError> {
    let mut tested = Tested::new(alloc, U)?;
    parse_second(alloc, &mut tested)
}

fn parse_second(alloc: Global, tested: &mut Tested) -> Result<Outcome, CaseError> {
    tested.store_first(alloc)?;
    let outcome = outcome_of_parse(tested.parse(alloc, false)?, &tested.second)?;
    outcome.provided(
        tested.holds(alloc, tested.stored(outcome), None)?,
        "the source was lost",
    )
}

/// Like `parse`, with the scope option: after a failure the first source may have its mark set.
pub fn parse_with_scopes(alloc: Global) -> Result<Outcome, CaseError> {
    let marked_first = source(alloc, U, "a")?.into_with_scope_analysis();
    let marked_second = source(alloc, U, "b")?.into_with_scope_analysis();
    parse_beside(alloc, &marked_first, &marked_second)
}

fn parse_beside(
    alloc: Global,
    marked_first: &ParsedSource,
    marked_second: &ParsedSource,
) -> Result<Outcome, CaseError> {
    let mut tested = Tested::new(alloc, U)?;
    parse_marked(alloc, &mut tested, marked_first, marked_second)
}

fn parse_marked(
    alloc: Global,
    tested: &mut Tested,
    marked_first: &ParsedSource,
    marked_second: &ParsedSource,
) -> Result<Outcome, CaseError> {
    tested.store_first(alloc)?;
    let outcome = outcome_of_parse(tested.parse(alloc, true)?, marked_second)?;
    let is_stored = if outcome == Outcome::Returned {
        tested.holds(alloc, marked_second, None)?
    } else {
        tested.holds(alloc, &tested.first, None)? || tested.holds(alloc, marked_first, None)?
    };
    outcome.provided(is_stored, "the source was lost")
}
