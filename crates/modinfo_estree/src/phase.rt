//! Phases of imports.

ghost use Rattle.deno_graph_json.specs.ObjectReader.{readable, value_of};
ghost use Rattle.deno_graph_json.specs.Read.Result.{IsReadResult};
ghost use Rattle.modinfo_document.specs.Kind.{phases};
ghost use Rattle.modinfo_document.specs.Named.{reads_named};
ghost use Rattle.modinfo_estree.specs.Kind.{reads_phase};

use crate::member::is_present;
use crate::source::{Estree, NodeMembers};
use deno_graph_json::{Element, FromJson, ReadError};
use deno_graph_source::tree::ImportPhase;
use modinfo_document::Document;
use std::alloc::Global;

/// Reads the phase of an import, `Evaluation` if there is none or null.
#[tactic(auto, unfolding(crate::specs::Kind::reads_phase))]
pub fn read_phase(members: &NodeMembers<'_>) -> Result<ImportPhase, ReadError>
    ensures { IsReadResult (value_of members.now) (reads_phase (readable members.now)) result }
{
    if is_present(members, "phase") {
        members.read("phase")
    } else {
        Ok(ImportPhase::Evaluation)
    }
}

/// Reads a phase by its name, as in a module document.
impl FromJson<Estree> for ImportPhase {
    ghost reads = { reads_named phases };

    fn from_json(alloc: Global, value: Element<'_>) -> Result<ImportPhase, ReadError> {
        FromJson::<Document>::from_json(alloc, value)
    }
}
