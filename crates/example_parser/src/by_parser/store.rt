//! A store over another store.

use deno_graph_analysis::ast::ParsedSourceStore;
use deno_graph_source::tree::ParsedSource;
use std::alloc::{AllocError, Global};
use url::Url;

/// Counts the sources that are stored in another store.
#[derive(Drop)]
pub struct CountingStore<S: ParsedSourceStore> {
    store: S,
    sets: u64,
}

impl<S: ParsedSourceStore> CountingStore<S> {
    pub fn new(store: S) -> CountingStore<S> {
        CountingStore { store, sets: 0 }
    }
}

impl<S: ParsedSourceStore> ParsedSourceStore for CountingStore<S> {
    ghost sources = { λ it. S.sources it.store };

    fn set_parsed_source(
        &mut self,
        alloc: Global,
        specifier: Url,
        source: ParsedSource,
    ) -> Result<Option<ParsedSource>, AllocError> {
        self.sets = self.sets.saturating_add(1);
        self.store.set_parsed_source(alloc, specifier, source)
    }

    fn get_parsed_source(
        &self,
        alloc: Global,
        specifier: &Url,
    ) -> Result<Option<ParsedSource>, AllocError> {
        self.store.get_parsed_source(alloc, specifier)
    }

    fn remove_parsed_source(
        &mut self,
        alloc: Global,
        specifier: &Url,
    ) -> Result<Option<ParsedSource>, AllocError> {
        self.store.remove_parsed_source(alloc, specifier)
    }

    fn get_scope_analysis_parsed_source(
        &mut self,
        alloc: Global,
        specifier: &Url,
    ) -> Result<Option<ParsedSource>, AllocError> {
        self.store
            .get_scope_analysis_parsed_source(alloc, specifier)
    }
}
