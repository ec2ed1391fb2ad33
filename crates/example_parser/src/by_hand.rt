//! The first way: a tree made in code becomes a source, which is analyzed. There is no parser, and no
//! trait to implement.

use crate::tree::import_program;
use anyhow::Result;
use deno_graph_analysis::ast::module_info;
use deno_graph_source::tree::{Comments, MediaType, ParsedSource};
use std::alloc::Global;
use std::rc::RcStr;
use url::Url;

/// Returns the info of `import "./b.ts";` as JSON. `ParsedSource::new` checks the tree against the
/// text.
pub fn info_json(alloc: Global) -> Result<String> {
    let source = ParsedSource::new(
        alloc,
        Url::parse(alloc, "file:///a.ts")?,
        RcStr::from_str(alloc, "import \"./b.ts\";")?,
        MediaType::TypeScript,
        import_program(alloc, "./b.ts")?,
        Comments::new(alloc),
        false,
    )?;
    let info = module_info(alloc, &source)?;
    Ok(info.to_json(alloc)?)
}
