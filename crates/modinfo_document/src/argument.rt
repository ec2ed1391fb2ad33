//! Reading arguments of calls.

ghost use Rattle.modinfo_document.specs.KindParts.{reads_arg};

use crate::document::Document;
use deno_graph_json::{Element, FromJson, ObjectReader, ReadError};
use deno_graph_source::tree::Arg;
use std::alloc::Global;

/// Reads an argument, `{"range":[START,END],"spread":BOOL}`.
impl FromJson<Document> for Arg {
    ghost reads = { reads_arg };

    #[tactic(auto, using(deno_graph_json::proofs::Reading::reading), unfolding(crate::specs::KindParts::reads_arg))]
    fn from_json(alloc: Global, value: Element<'_>) -> Result<Arg, ReadError> {
        let object = ObjectReader::<Document>::new(alloc, value)?;
        let range = object.read("range")?;
        let spread = object.read_or("spread", false)?;
        Ok(Arg { spread, range })
    }
}
