//! The trait of stores of parsed sources, and a store in memory.

ghost use Rattle.std.specs.Prelude.{◌≡◌, IfOk, OnOk, OnErr};
ghost use Rattle.deno_graph_analyzer.specs.Sources.{no_sources, source_at, with_mark};
ghost use Rattle.deno_graph_analyzer.specs.internal.MapSources.{sources_of};

use deno_graph_base::values::TryClone;
use deno_graph_source::tree::ParsedSource;
use std::alloc::{AllocError, Global};
use std::collections::BTreeMap;
use std::marker::Model;
use url::Url;

/// A store of parsed sources: a finite map from the texts of specifiers to sources. A call that
/// returns an error changes nothing.
pub trait ParsedSourceStore: Drop {
    ghost use Rattle.std.specs.Prelude.{◌≡◌, IfOk, OnOk, OnErr};
    ghost use Rattle.deno_graph_analyzer.specs.Parsing.{specifier_text};
    ghost use Rattle.deno_graph_analyzer.specs.Sources.{Sources, source_at, with_source, without_source, with_mark};

    /// The sources in the store.
    ghost sources: { Self → Sources };

    /// Stores `source` under `specifier`, and returns the source that it replaces. Drops `source`
    /// if an allocation fails.
    fn set_parsed_source(
        &mut self,
        alloc: Global,
        specifier: Url,
        source: ParsedSource,
    ) -> Result<Option<ParsedSource>, AllocError>
        ensures former { IfOk result (λ former.
            former ≡ source_at (sources self.old) (specifier_text specifier)) }
        ensures ok { OnOk result (sources self.new
            ≡ with_source (sources self.old) (specifier_text specifier) source) }
        ensures err { OnErr result (sources self.new ≡ sources self.old) };

    /// Returns the source under `specifier`, if there is one.
    fn get_parsed_source(
        &self,
        alloc: Global,
        specifier: &Url,
    ) -> Result<Option<ParsedSource>, AllocError>
        ensures { IfOk result (λ found.
            found ≡ source_at (sources self.now) (specifier_text specifier.now)) };

    /// Removes the source under `specifier`, and returns it.
    fn remove_parsed_source(
        &mut self,
        alloc: Global,
        specifier: &Url,
    ) -> Result<Option<ParsedSource>, AllocError>
        ensures former { IfOk result (λ former.
            former ≡ source_at (sources self.old) (specifier_text specifier.now)) }
        ensures ok { OnOk result (sources self.new
            ≡ without_source (sources self.old) (specifier_text specifier.now)) }
        ensures err { OnErr result (sources self.new ≡ sources self.old) };

    /// Sets the mark of analyzed scopes on the source under `specifier`, in the store too, and
    /// returns the marked source.
    fn get_scope_analysis_parsed_source(
        &mut self,
        alloc: Global,
        specifier: &Url,
    ) -> Result<Option<ParsedSource>, AllocError>
        ensures found { IfOk result (λ found.
            found ≡ source_at (sources self.new) (specifier_text specifier.now)) }
        ensures ok { OnOk result (sources self.new
            ≡ with_mark (sources self.old) (specifier_text specifier.now)) }
        ensures err { OnErr result (sources self.new ≡ sources self.old) };
}

/// A store in memory. A returned source shares its tree and comments with the stored source.
#[derive(Debug, Drop)]
pub struct DefaultParsedSourceStore {
    sources: BTreeMap<String, ParsedSource>,
}

impl Model for DefaultParsedSourceStore {
    ghost use Rattle.std.specs.Coded.{coded_list, coded_ℕ};
    ghost use Rattle.std.specs.FinMap as map;
    ghost use Rattle.deno_graph_source.specs.contracts.tree.parsed_source.ParsedSource as parsed_source;
    ghost use Rattle.deno_graph_analyzer.specs.Sources.{Sources};
    ghost use Rattle.deno_graph_analyzer.specs.internal.MapSources.{sources_of};

    ghost Value = { Sources };

    ghost coded = { map.code (coded_list coded_ℕ) parsed_source.the_row.coded };

    ghost view = { λ store. sources_of store.sources };
}

impl DefaultParsedSourceStore {
    /// Returns an empty store. Allocates nothing.
    pub fn new(alloc: Global) -> DefaultParsedSourceStore
        ensures { result ≡ no_sources }
    {
        DefaultParsedSourceStore {
            sources: BTreeMap::new(alloc),
        }
    }
}

impl ParsedSourceStore for DefaultParsedSourceStore {
    ghost sources = { λ store. store };

    fn set_parsed_source(
        &mut self,
        alloc: Global,
        specifier: Url,
        source: ParsedSource,
    ) -> Result<Option<ParsedSource>, AllocError> {
        let key = String::from_str(alloc, specifier.as_str())?;
        Ok(self.sources.insert(key, source)?)
    }

    fn get_parsed_source(
        &self,
        alloc: Global,
        specifier: &Url,
    ) -> Result<Option<ParsedSource>, AllocError> {
        match self.sources.get(specifier.as_str()) {
            Some(source) => Ok(Some(source.try_clone(alloc)?)),
            None => Ok(None),
        }
    }

    fn remove_parsed_source(
        &mut self,
        _alloc: Global,
        specifier: &Url,
    ) -> Result<Option<ParsedSource>, AllocError> {
        Ok(self.sources.remove(specifier.as_str()))
    }

    fn get_scope_analysis_parsed_source(
        &mut self,
        alloc: Global,
        specifier: &Url,
    ) -> Result<Option<ParsedSource>, AllocError> {
        mark_source(&mut self.sources, alloc, specifier.as_str())
    }
}

/// Marks the source at `key` in the map, and returns the marked source.
fn mark_source(
    sources: &mut BTreeMap<String, ParsedSource>,
    alloc: Global,
    key: &str,
) -> Result<Option<ParsedSource>, AllocError>
    ensures found { IfOk result (λ found. found ≡ source_at (sources_of sources.new) key.now) }
    ensures ok { OnOk result (sources_of sources.new ≡ with_mark (sources_of sources.old) key.now) }
    ensures err { OnErr result (sources_of sources.new ≡ sources_of sources.old) }
{
    let Some(source) = sources.get_mut(key) else {
        return Ok(None);
    };
    let marked = source.try_clone(alloc)?.into_with_scope_analysis();
    *source = marked.try_clone(alloc)?;
    Ok(Some(marked))
}

/// Passes each call on to the store in the box.
impl ParsedSourceStore for Box<dyn ParsedSourceStore> {
    ghost sources = { λ boxed. (ParsedSourceStore-box boxed).sources boxed.value };

    fn set_parsed_source(
        &mut self,
        alloc: Global,
        specifier: Url,
        source: ParsedSource,
    ) -> Result<Option<ParsedSource>, AllocError> {
        (**self).set_parsed_source(alloc, specifier, source)
    }

    fn get_parsed_source(
        &self,
        alloc: Global,
        specifier: &Url,
    ) -> Result<Option<ParsedSource>, AllocError> {
        (**self).get_parsed_source(alloc, specifier)
    }

    fn remove_parsed_source(
        &mut self,
        alloc: Global,
        specifier: &Url,
    ) -> Result<Option<ParsedSource>, AllocError> {
        (**self).remove_parsed_source(alloc, specifier)
    }

    fn get_scope_analysis_parsed_source(
        &mut self,
        alloc: Global,
        specifier: &Url,
    ) -> Result<Option<ParsedSource>, AllocError> {
        (**self).get_scope_analysis_parsed_source(alloc, specifier)
    }
}
