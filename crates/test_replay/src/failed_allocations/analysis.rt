//! `analyze_sync`, which parses a text, stores the source and then makes the info.

use crate::case_error::CaseError;
use crate::failed_allocations::outcome::{Outcome, check};
use crate::failed_allocations::sources::{U, braces, info_of, source};
use deno_graph_analysis::ast::{
    AnalyzeError, CapturingModuleAnalyzer, DefaultParsedSourceStore, ModuleAnalyzer,
    ParsedSourceStore,
};
use deno_graph_info::analysis::ModuleInfo;
use deno_graph_source::tree::{MediaType, ParsedSource};
use deno_graph_source::values::TryClone;
use example_table_parser::TableParser;
use std::alloc::{AllocError, Global};
use std::cell::Cell;
use std::rc::Rc;
use url::Url;

/// A store that counts the sources that were stored.
#[derive(Drop)]
struct CountingStore {
    store: DefaultParsedSourceStore,
    stored: Rc<Cell<u64>>,
}

impl ParsedSourceStore for CountingStore {
    ghost sources = { λ it. it.store };

    fn set_parsed_source(
        &mut self,
        alloc: Global,
        specifier: Url,
        source: ParsedSource,
    ) -> Result<Option<ParsedSource>, AllocError> {
        let former = self.store.set_parsed_source(alloc, specifier, source);
        if former.is_ok() {
            self.stored.set(self.stored.get().saturating_add(1));
        }
        former
    }

    fn get_parsed_source(
        &self,
        alloc: Global,
        specifier: &Url,
    ) -> Result<Option<ParsedSource>, AllocError> {
        self.store.get_parsed_source(alloc, specifier)
    }

    fn remove_parsed_source(
        &mut self,
        alloc: Global,
        specifier: &Url,
    ) -> Result<Option<ParsedSource>, AllocError> {
        self.store.remove_parsed_source(alloc, specifier)
    }

    fn get_scope_analysis_parsed_source(
        &mut self,
        alloc: Global,
        specifier: &Url,
    ) -> Result<Option<ParsedSource>, AllocError> {
        self.store
            .get_scope_analysis_parsed_source(alloc, specifier)
    }
}

type Analyzer = CapturingModuleAnalyzer<TableParser, CountingStore>;

/// An analyzer whose parser knows the second source, and two sources under one specifier.
#[derive(Drop)]
struct Tested {
    analyzer: Analyzer,
    stored: Rc<Cell<u64>>,
    first: ParsedSource,
    second: ParsedSource,
}

impl Tested {
    fn new(alloc: Global) -> Result<Tested, CaseError> {
        let stored = Rc::new(alloc, Cell::new(0))?;
        let first = source(alloc, U, "a")?;
        let second = braces(alloc)?;
        Ok(Tested {
            analyzer: analyzer(alloc, &second, &stored)?,
            stored,
            first,
            second,
        })
    }

    fn store_first(&mut self, alloc: Global) -> Result<(), CaseError> {
        let specifier = self.first.specifier().clone()?;
        let first = self.first.try_clone(alloc)?;
        drop(self.analyzer.set_parsed_source(alloc, specifier, first)?);
        Ok(())
    }

    /// Analyzes the text of the second source.
    fn analyze(&mut self, alloc: Global) -> Result<Result<ModuleInfo, AnalyzeError>, AllocError> {
        let text = self.second.text().clone()?;
        let specifier = self.second.specifier();
        Ok(
            self.analyzer
                .analyze_sync(alloc, specifier, text, MediaType::JavaScript),
        )
    }

    /// Returns whether the second source was parsed and stored, after the first.
    fn is_parsed(&self) -> bool {
        self.stored.get() == 2
    }

    /// Returns whether the store has the source that was stored last. Allocates nothing.
    fn has_last(&self, alloc: Global) -> Result<bool, AllocError> {
        let there = self
            .analyzer
            .get_parsed_source(alloc, self.second.specifier())?;
        let last = if self.is_parsed() {
            &self.second
        } else {
            &self.first
        };
        Ok(there.as_ref() == Some(last))
    }
}

/// Returns an analyzer whose parser knows one source.
fn analyzer(
    alloc: Global,
    source: &ParsedSource,
    stored: &Rc<Cell<u64>>,
) -> Result<Analyzer, CaseError> {
    let mut sources = Vec::new(alloc);
    sources.push(source.try_clone(alloc)?)?;
    let parser = TableParser::new(sources, Rc::new(alloc, Cell::new(0))?);
    let store = CountingStore {
        store: DefaultParsedSourceStore::new(alloc),
        stored: stored.clone()?,
    };
    Ok(CapturingModuleAnalyzer::new(parser, store))
}

/// If the info is out of memory, the parsed source stays in the store. If the parse is out of
/// memory, this returns no outcome: `stores::parse` tests that.
pub fn analyze(alloc: Global) -> Result<Outcome, CaseError> {
    let mut tested = Tested::new(alloc)?;
    analyze_second(alloc, &mut tested)
}

fn analyze_second(alloc: Global, tested: &mut Tested) -> Result<Outcome, CaseError> {
    tested.store_first(alloc)?;
    let expected = info_of(alloc, &tested.second)?;
    analyze_and_check(alloc, tested, &expected)
}

fn analyze_and_check(
    alloc: Global,
    tested: &mut Tested,
    expected: &ModuleInfo,
) -> Result<Outcome, CaseError> {
    let outcome = analyze_tested(alloc, tested, expected);
    check(
        tested.has_last(alloc)?,
        "the source isn't the one that was stored last",
    )?;
    outcome
}

fn analyze_tested(
    alloc: Global,
    tested: &mut Tested,
    expected: &ModuleInfo,
) -> Result<Outcome, CaseError> {
    let found = tested.analyze(alloc)?;
    outcome(&found, expected, tested.is_parsed())
}

fn outcome(
    found: &Result<ModuleInfo, AnalyzeError>,
    expected: &ModuleInfo,
    is_parsed: bool,
) -> Result<Outcome, CaseError> {
    match found {
        Ok(info) => {
            Outcome::Returned.provided(is_parsed && info == expected, "the info is another")
        }
        Err(AnalyzeError::OutOfMemory) if is_parsed => Ok(Outcome::OutOfMemory),
        Err(AnalyzeError::OutOfMemory) => Err(CaseError::OutOfMemory),
        Err(AnalyzeError::Parse(_)) => Err(CaseError::Unexpected("a text is not parsed")),
    }
}
