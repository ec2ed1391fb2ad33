//! Reading nodes and programs.

ghost use Rattle.std.specs.Prelude.{◌≡◌, Err, MatchResult, Ok, codes, option_map};
ghost use Rattle.serde_json.specs.Find.{get_member};
ghost use Rattle.deno_graph_json.specs.Data.{data_of};
ghost use Rattle.deno_graph_json.specs.ObjectReader.{readable, value_of};
ghost use Rattle.deno_graph_json.specs.Read.Result.{IsReadResult};
ghost use Rattle.modinfo_document.specs.Node.{children_in, reads_node, reads_nodes, reads_program};

use crate::document::Document;
use crate::kind::read_kind;
use deno_graph_json::read::read_array;
use deno_graph_json::{Element, FromJson, ObjectReader, ReadError};
use deno_graph_source::tree::{Node, Program};
use deno_graph_source::values::Items;
use std::alloc::Global;

/// Reads a program, `{"range":[START,END],"body":[NODE ..],"shebang":BOOL}`.
impl FromJson<Document> for Program {
    ghost reads = { reads_program };

    #[tactic(auto, using(deno_graph_json::proofs::Reading::reading), unfolding(crate::specs::Node::reads_program))]
    fn from_json(alloc: Global, value: Element<'_>) -> Result<Program, ReadError> {
        let object = ObjectReader::<Document>::new(alloc, value)?;
        let range = object.read("range")?;
        let has_shebang = object.read_or("shebang", false)?;
        let body = object.read("body")?;
        Ok(Program {
            range,
            body,
            has_shebang,
        })
    }
}

/// Reads a node, with all nodes below.
impl FromJson<Document> for Node {
    ghost reads = { reads_node };

    fn from_json(alloc: Global, value: Element<'_>) -> Result<Node, ReadError> {
        read_node(alloc, value)
    }
}

/// Reads a node, with all nodes below.
#[cycle(read)]
fn read_node(alloc: Global, value: Element<'_>) -> Result<Node, ReadError>
    ensures { IsReadResult (data_of value.entry) (reads_node (data_of value.entry)) result }
{
    let object = ObjectReader::<Document>::new(alloc, value)?;
    let mut found = [None; 3];
    object.find(&["range", "kind", "children"], &mut found);
    let range = object.read_found("range", found[0])?;
    let kind = read_kind(&object, found[1])?;
    let (children, kind) = beside(read_children(alloc, &object, found[2]), kind)?;
    Ok(Node {
        range,
        kind,
        children,
    })
}

/// Returns a pair of the value that was read and `value`, or the error of the read.
fn beside<A, B: Drop, E>(read: Result<A, E>, value: B) -> Result<(A, B), E>
    ensures { MatchResult result (λ both. (read ≡ Ok both.0) × (both.1 ≡ value)) (λ error. read ≡ Err error) }
{
    match read {
        Ok(read) => Ok((read, value)),
        Err(error) => Err(error),
    }
}

/// Reads the children of a node. `found` is the member `children`.
#[cycle(read)]
fn read_children(
    alloc: Global,
    object: &ObjectReader<Document>,
    found: Option<Element<'_>>,
) -> Result<Items<Node>, ReadError>
    requires { option_map data_of found ≡ get_member (codes "children") (readable object.now) }
    ensures { IsReadResult (value_of object.now) (children_in (readable object.now)) result }
{
    match found {
        None => Ok(Items::new(alloc)),
        Some(children) => match read_nodes(alloc, children) {
            Ok(nodes) => Ok(nodes),
            Err(error) => Err(error.in_member(alloc, "children")),
        },
    }
}

/// Reads an array of nodes.
#[cycle(read)]
fn read_nodes(alloc: Global, value: Element<'_>) -> Result<Items<Node>, ReadError>
    ensures { IsReadResult (data_of value.entry) (reads_nodes (data_of value.entry)) result }
{
    let values = read_array(alloc, value)?;
    let mut nodes = Items::with_capacity(alloc, values.len())?;
    for item in values {
        let number = nodes.len();
        match read_node(alloc, item) {
            Ok(node) => nodes.push(node)?,
            Err(error) => return Err(error.in_item(number)),
        }
    }
    Ok(nodes)
}
