//! Exports of this module's own declarations and names.

ghost use Rattle.std.specs.Prelude.{◌≡◌, IfOk, option_map};
ghost use Rattle.deno_graph_json.specs.Data.{data_of};
ghost use Rattle.deno_graph_json.specs.ObjectReader.{readable};
ghost use Rattle.deno_graph_json.specs.Read.Result.{IsReadResult};
ghost use Rattle.modinfo_estree.specs.Kind as spec;
ghost use Rattle.modinfo_estree.specs.Parts.{parts_of};
ghost use Rattle.modinfo_estree.specs.Source.{byte_in, byte_of, source_of};

use crate::child::{Child, nodes_of};
use crate::expression::found;
use crate::member::read_range;
use crate::offsets::Offsets;
use crate::reading::Reading;
use crate::source::NodeMembers;
use deno_graph_json::{Element, ReadError};
use deno_graph_source::text::SourceRange;
use deno_graph_source::tree::{Kind, Node};
use std::alloc::{AllocError, Global};

impl<'a, 't, 'v> Reading<'a, 't, 'v> {
    /// Reads an export of a declaration or of names of this module. It begins at the first decorator of
    /// what it declares, if that is before `export`.
    #[tactic(auto, unfolding(crate::specs::Kind::export_of))]
    pub fn export(&self, children: Vec<Child>) -> Result<Node, AllocError>
        ensures { IfOk result (λ node. node ≡ spec.export_of (parts_of self.now) children.items) }
    {
        let decorated = self.declaration_start()?;
        Ok(Node {
            range: SourceRange::new(first_start(self.range.start, decorated), self.range.end),
            kind: Kind::ExportOther,
            children: nodes_of(self.alloc, children)?,
        })
    }

    /// Returns the start of the first decorator of what an export declares.
    #[tactic(auto, unfolding(crate::specs::Kind::declaration_start))]
    fn declaration_start(&self) -> Result<Option<usize>, AllocError>
        ensures { IfOk result (λ start. start
            ≡ spec.declaration_start (byte_of (source_of self.now.source.now)) (readable self.now.members)) }
    {
        let Some(declaration) = self.members.get("declaration") else {
            return Ok(None);
        };
        match declaration.members() {
            Some(members) => {
                let declared = NodeMembers::of_members(self.alloc, members);
                decorators_start(self.alloc, &self.source.offsets, &declared)
            }
            None => Ok(None),
        }
    }
}

/// Returns the start of the first decorator.
#[tactic(auto, unfolding(crate::specs::Kind::decorators_start))]
fn decorators_start(
    alloc: Global,
    offsets: &Offsets<'_>,
    members: &NodeMembers<'_>,
) -> Result<Option<usize>, AllocError>
    ensures { IfOk result (λ start. start
        ≡ spec.decorators_start (byte_in offsets.now) (readable members.now)) }
{
    match first_decorator(members) {
        Some(first) => found(read_start(alloc, offsets, first)),
        None => Ok(None),
    }
}

/// Returns the first decorator.
#[tactic(auto, unfolding(crate::specs::Kind::first_decorator))]
fn first_decorator<'v>(members: &NodeMembers<'v>) -> Option<Element<'v>>
    ensures { option_map data_of result ≡ spec.first_decorator (readable members.now) }
{
    members.get("decorators")?.elements()?.get(0)
}

/// Reads the start of a node.
#[tactic(auto, using(deno_graph_json::proofs::Reading::reading))]
fn read_start(alloc: Global, offsets: &Offsets<'_>, value: Element<'_>) -> Result<usize, ReadError>
    ensures { IsReadResult (data_of value.entry)
        (spec.start_in (byte_in offsets.now) (data_of value.entry)) result }
{
    let members = NodeMembers::new(alloc, value)?;
    let range = read_range(offsets, &members)?;
    Ok(range.start)
}

/// Returns the first of two offsets, the second of which may not be there.
fn first_start(start: usize, other: Option<usize>) -> usize
    ensures { result ≡ spec.first_start start other }
{
    match other {
        Some(other) => start.min(other),
        None => start,
    }
}
