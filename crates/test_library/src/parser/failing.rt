//! A parser and a store that return out of memory once.

use deno_graph_analysis::ast::{EsParser, ParseError, ParseOptions, ParsedSourceStore};
use deno_graph_source::tree::ParsedSource;
use std::alloc::{AllocError, Global};
use url::Url;

/// A parser whose second call returns `OutOfMemory`.
#[derive(Drop)]
pub struct FailingParser<P: EsParser> {
    pub parser: P,
    pub calls: u64,
}

impl<P: EsParser> EsParser for FailingParser<P> {
    ghost parses = { λ it. P.parses it.parser };

    ghost count = { λ it. P.count it.parser };

    ghost is_sound = { λ it. P.is_sound it.parser };

    fn parse_program(
        &mut self,
        alloc: Global,
        options: ParseOptions<'_>,
    ) -> Result<ParsedSource, ParseError> {
        self.calls = self.calls.saturating_add(1);
        if self.calls == 2 {
            return Err(ParseError::OutOfMemory);
        }
        self.parser.parse_program(alloc, options)
    }
}

/// A store that returns an error for one of the sources that are stored in it.
#[derive(Drop)]
pub struct FailingStore<S: ParsedSourceStore> {
    pub store: S,
    pub sets: u64,
    /// Number of the source for which it returns an error, counted from one.
    pub failing: u64,
}

impl<S: ParsedSourceStore> ParsedSourceStore for FailingStore<S> {
    ghost sources = { λ it. S.sources it.store };

    fn set_parsed_source(
        &mut self,
        alloc: Global,
        specifier: Url,
        source: ParsedSource,
    ) -> Result<Option<ParsedSource>, AllocError> {
        self.sets = self.sets.saturating_add(1);
        if self.sets == self.failing {
            return Err(AllocError);
        }
        self.store.set_parsed_source(alloc, specifier, source)
    }

    fn get_parsed_source(
        &self,
        alloc: Global,
        specifier: &Url,
    ) -> Result<Option<ParsedSource>, AllocError> {
        self.store.get_parsed_source(alloc, specifier)
    }

    fn remove_parsed_source(
        &mut self,
        alloc: Global,
        specifier: &Url,
    ) -> Result<Option<ParsedSource>, AllocError> {
        self.store.remove_parsed_source(alloc, specifier)
    }

    fn get_scope_analysis_parsed_source(
        &mut self,
        alloc: Global,
        specifier: &Url,
    ) -> Result<Option<ParsedSource>, AllocError> {
        self.store
            .get_scope_analysis_parsed_source(alloc, specifier)
    }
}
