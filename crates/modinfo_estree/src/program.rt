//! Programs.
#![tactic(auto, using(deno_graph_json::proofs::Reading::reading), unfolding(deno_graph_json::specs::Read::Partial::member_at))]

ghost use Rattle.std.specs.Prelude.{◌≡◌, [], IfErr, codes};
ghost use Rattle.deno_graph_json.specs.Data.{data_of};
ghost use Rattle.deno_graph_json.specs.ObjectReader.{readable, value_of};
ghost use Rattle.deno_graph_json.specs.Read.Partial.{member_at, member_or, reads_array};
ghost use Rattle.deno_graph_json.specs.Read.Result.{IsReadResult};
ghost use Rattle.serde_json.specs.Data.{string};
ghost use Rattle.modinfo_document.specs.Named.{ExpectsNameIn, named, reads_named};
ghost use Rattle.modinfo_estree.specs.Document.{outermost_types, program_types};
ghost use Rattle.modinfo_estree.specs.Document.{reads_body, reads_file, reads_program};
ghost use Rattle.modinfo_estree.specs.Node.{reads_node};
ghost use Rattle.modinfo_estree.specs.Source.{source_of};
ghost use Rattle.modinfo_estree.specs.declared.role.Role.TheVariants.{Other};

use crate::required::{in_member, read_at, required};
use crate::source::{Estree, NodeMembers, Source};
use deno_graph_json::read::read_str;
use deno_graph_json::{Element, Expected, FromJson, NameList, ReadError};
use deno_graph_source::tree::Node;
use deno_graph_source::values::Items;
use std::alloc::Global;

/// The type of the outermost node.
#[derive(Clone, Copy, Debug, PartialEq, Eq)]
pub enum Outermost {
    Program,
    /// Babel's node around a program.
    File,
}

/// Reads the type of the outermost node.
impl FromJson<Estree> for Outermost {
    ghost reads = { reads_named outermost_types };

    #[tactic(auto, using(deno_graph_json::proofs::Reading::reading), unfolding(modinfo_document::specs::Named::reads_named))]
    fn from_json(alloc: Global, value: Element<'_>) -> Result<Outermost, ReadError> {
        let name = read_str(alloc, value)?;
        outermost_named(alloc, name)
    }
}

/// Returns the type of the outermost node by its name.
#[tactic(auto, unfolding(modinfo_document::specs::Named::named))]
fn outermost_named(alloc: Global, name: &str) -> Result<Outermost, ReadError>
    ensures read { IsReadResult (string name.now) (named outermost_types name.now) result }
    ensures expected { IfErr result (ExpectsNameIn outermost_types) }
{
    match name {
        "Program" => Ok(Outermost::Program),
        "File" => Ok(Outermost::File),
        _ => Err(ReadError::expected(alloc, Expected::NameIn(NameList::OutermostTypes))),
    }
}

/// The type of the node inside a `File`.
#[derive(Clone, Copy, Debug, PartialEq, Eq)]
pub enum ProgramType {
    Program,
}

/// Reads the type of a program.
impl FromJson<Estree> for ProgramType {
    ghost reads = { reads_named program_types };

    #[tactic(auto, using(deno_graph_json::proofs::Reading::reading), unfolding(modinfo_document::specs::Named::reads_named))]
    fn from_json(alloc: Global, value: Element<'_>) -> Result<ProgramType, ReadError> {
        let name = read_str(alloc, value)?;
        program_named(alloc, name)
    }
}

/// Returns the type of this name, if that is the type of programs.
#[tactic(auto, unfolding(modinfo_document::specs::Named::named))]
fn program_named(alloc: Global, name: &str) -> Result<ProgramType, ReadError>
    ensures read { IsReadResult (string name.now) (named program_types name.now) result }
    ensures expected { IfErr result (ExpectsNameIn program_types) }
{
    match name {
        "Program" => Ok(ProgramType::Program),
        _ => Err(ReadError::expected(alloc, Expected::NameIn(NameList::ProgramTypes))),
    }
}

/// Reads the statements of the program that is the member `program` of a document.
pub fn read_file_at(
    alloc: Global,
    source: &Source<'_>,
    members: &NodeMembers<'_>,
) -> Result<Items<Node>, ReadError>
    ensures { IsReadResult (value_of members.now)
        (member_at (reads_file (source_of source.now)) (codes "program") (readable members.now)) result }
{
    let value = required(alloc, members, "program")?;
    in_member(alloc, members, "program", read_file(alloc, source, value))
}

/// Reads the statements of a program, or of the `File` around one, as Babel has it.
#[tactic(auto, using(deno_graph_json::proofs::Reading::reading), unfolding(crate::specs::Document::reads_file))]
fn read_file(
    alloc: Global,
    source: &Source<'_>,
    value: Element<'_>,
) -> Result<Items<Node>, ReadError>
    ensures { IsReadResult (data_of value.entry)
        (reads_file (source_of source.now) (data_of value.entry)) result }
{
    let members = NodeMembers::new(alloc, value)?;
    match members.read("type")? {
        Outermost::Program => read_body(alloc, source, &members),
        Outermost::File => read_program_at(alloc, source, &members),
    }
}

/// Reads the statements of the program of a file.
fn read_program_at(
    alloc: Global,
    source: &Source<'_>,
    members: &NodeMembers<'_>,
) -> Result<Items<Node>, ReadError>
    ensures { IsReadResult (value_of members.now)
        (member_at (reads_program (source_of source.now)) (codes "program") (readable members.now)) result }
{
    let value = required(alloc, members, "program")?;
    in_member(
        alloc,
        members,
        "program",
        read_program(alloc, source, value),
    )
}

/// Reads the statements of a program.
#[tactic(auto, using(deno_graph_json::proofs::Reading::reading), unfolding(crate::specs::Document::reads_program))]
fn read_program(
    alloc: Global,
    source: &Source<'_>,
    value: Element<'_>,
) -> Result<Items<Node>, ReadError>
    ensures { IsReadResult (data_of value.entry)
        (reads_program (source_of source.now) (data_of value.entry)) result }
{
    let members = NodeMembers::new(alloc, value)?;
    let _type: ProgramType = members.read("type")?;
    read_body(alloc, source, &members)
}

/// Reads the directives and the statements of a program.
#[tactic(auto, using(deno_graph_json::proofs::Reading::reading), unfolding(crate::specs::Document::reads_body))]
fn read_body(
    alloc: Global,
    source: &Source<'_>,
    members: &NodeMembers<'_>,
) -> Result<Items<Node>, ReadError>
    ensures { IsReadResult (value_of members.now)
        (reads_body (source_of source.now) (readable members.now)) result }
{
    let mut nodes = read_directives(alloc, source, members)?.into_vec();
    let body: Items<Node> = read_at(alloc, source, members, "body")?;
    let mut body = body.into_vec();
    nodes.append(&mut body)?;
    Ok(Items::from_vec(nodes))
}

/// Reads the directives of a program, none if it has no such member.
#[tactic(auto, using(deno_graph_json::proofs::Reading::reading), unfolding(deno_graph_json::specs::Read::Partial::member_at, deno_graph_json::specs::Read::Partial::member_or))]
fn read_directives(
    alloc: Global,
    source: &Source<'_>,
    members: &NodeMembers<'_>,
) -> Result<Items<Node>, ReadError>
    ensures { IsReadResult (value_of members.now)
        (member_or (reads_array (reads_node (source_of source.now) Other)) (codes "directives") []
        (readable members.now)) result }
{
    match members.get("directives") {
        Some(_) => read_at(alloc, source, members, "directives"),
        None => Ok(Items::new(alloc)),
    }
}
