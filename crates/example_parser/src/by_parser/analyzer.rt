//! An analyzer over another analyzer.

use deno_graph_analysis::ast::{AnalyzeError, ModuleAnalyzer};
use deno_graph_info::analysis::ModuleInfo;
use deno_graph_source::tree::MediaType;
use std::alloc::Global;
use std::rc::RcStr;
use url::Url;

/// Returns an empty info for JSON, and calls another analyzer for any other text.
#[derive(Drop)]
pub struct WithoutJson<A: ModuleAnalyzer + Drop> {
    analyzer: A,
}

impl<A: ModuleAnalyzer + Drop> WithoutJson<A> {
    pub fn new(analyzer: A) -> WithoutJson<A> {
        WithoutJson { analyzer }
    }
}

impl<A: ModuleAnalyzer + Drop> ModuleAnalyzer for WithoutJson<A> {
    ghost parses = { λ it. A.parses it.analyzer };

    ghost is_sound = { λ it. ⊥ };

    fn analyze_sync(
        &mut self,
        alloc: Global,
        specifier: &Url,
        source: RcStr,
        media_type: MediaType,
    ) -> Result<ModuleInfo, AnalyzeError> {
        if media_type == MediaType::Json {
            return Ok(ModuleInfo::new(alloc));
        }
        self.analyzer
            .analyze_sync(alloc, specifier, source, media_type)
    }
}
