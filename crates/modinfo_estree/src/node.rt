//! Nodes, with all nodes below.

ghost use Rattle.serde_json.specs.Data.{array, object};
ghost use Rattle.deno_graph_json.specs.Data.{data_of, elements_data, members_data};
ghost use Rattle.deno_graph_json.specs.Read.Result.{IsReadResult};
ghost use Rattle.modinfo_estree.specs.Node.{children_among, children_in, reads_node};
ghost use Rattle.modinfo_estree.specs.Source.{source_of};
ghost use Rattle.modinfo_estree.specs.internal.Candidates.{AreCandidates};
ghost use Rattle.modinfo_estree.specs.internal.Node.{AreAppended, children_at, item_child};

use crate::candidates::{Candidate, candidates, candidates_of};
use crate::child::{Child, sort_by_start};
use crate::member::{read_found_range, type_of};
use crate::reading::Reading;
use crate::required::ReadWith;
use crate::role::Role;
use crate::source::{NodeMembers, Source};
use deno_graph_json::read::read_object;
use deno_graph_json::{Element, Elements, ReadError, View};
use deno_graph_source::tree::Node;
use deno_graph_source::values::Items;
use std::alloc::Global;

/// Reads a node, with all nodes below.
#[cycle(read)]
fn read_node(
    alloc: Global,
    source: &Source<'_>,
    role: Role,
    value: Element<'_>,
) -> Result<Node, ReadError>
    ensures { IsReadResult (data_of value.entry)
        (reads_node (source_of source.now) role (data_of value.entry)) result }
{
    let members = read_object(alloc, value)?;
    let object = NodeMembers::of_members(alloc, members);
    let mut found = [None; 4];
    object.find(&["type", "range", "start", "end"], &mut found);
    let name = object.read_found_str("type", found[0])?;
    let range = read_found_range(&source.offsets, &object, found[1], found[2], found[3])?;
    let is_jsx = name == "JSXAttribute";
    let mut children = read_children(alloc, source, is_jsx, members)?.into_vec();
    sort_by_start(&mut children)?;
    let reading = Reading {
        alloc,
        source,
        role,
        members: object,
        range,
    };
    reading.node_of_type(name, children)
}

/// Reads the nodes below a node, in the order of the names of their members. `is_jsx` says that the node is
/// an attribute of JSX.
#[cycle(read)]
fn read_children(
    alloc: Global,
    source: &Source<'_>,
    is_jsx: bool,
    members: deno_graph_json::Members<'_>,
) -> Result<Items<Child>, ReadError>
    ensures { IsReadResult (object (members_data members.entry))
        (children_in (source_of source.now) is_jsx (members_data members.entry)) result }
{
    match candidates(alloc, members)? {
        Some(found) => read_candidates(alloc, source, is_jsx, members, &found),
        None => {
            let sorted = members.sorted(alloc)?;
            let found = candidates_of(alloc, &sorted)?;
            read_candidates(alloc, source, is_jsx, members, &found)
        }
    }
}

/// Reads the nodes below a node, from the members that may have some.
#[cycle(read)]
fn read_candidates(
    alloc: Global,
    source: &Source<'_>,
    is_jsx: bool,
    members: deno_graph_json::Members<'_>,
    found: &[Candidate<'_, '_>],
) -> Result<Items<Child>, ReadError>
    requires { AreCandidates (members_data members) found.now }
    ensures { IsReadResult (object (members_data members.entry))
        (children_in (source_of source.now) is_jsx (members_data members.entry)) result }
{
    let mut children = Items::new(alloc);
    for candidate in found {
        let name = candidate.name;
        match push_children(
            alloc,
            source,
            Role::of_member(is_jsx, name),
            candidate.value,
            &mut children,
        ) {
            Ok(()) => {}
            Err(error) => return Err(error.in_member(alloc, name)),
        }
    }
    Ok(children)
}

/// Appends the nodes of a member: its value, if that is a node, or the items of an array that are nodes.
#[cycle(read)]
fn push_children(
    alloc: Global,
    source: &Source<'_>,
    role: Role,
    value: Element<'_>,
    children: &mut Items<Child>,
) -> Result<(), ReadError>
    ensures { AreAppended (data_of value.entry)
        (children_at (source_of source.now) role (data_of value.entry)) children.old children.new result }
{
    match value.view() {
        View::Object(_) => push_node(alloc, source, role, value, children),
        View::Array(items) => push_items(alloc, source, role, items, children),
        _ => Ok(()),
    }
}

/// Appends the items of an array that are nodes.
#[cycle(read)]
fn push_items(
    alloc: Global,
    source: &Source<'_>,
    role: Role,
    items: Elements<'_>,
    children: &mut Items<Child>,
) -> Result<(), ReadError>
    ensures { AreAppended (array (elements_data items.entry))
        (children_among (source_of source.now) role (elements_data items.entry))
        children.old children.new result }
{
    for (index, item) in items.enumerate() {
        match push_node(alloc, source, role, item, children) {
            Ok(()) => {}
            Err(error) => return Err(error.in_item(index)),
        }
    }
    Ok(())
}

/// Appends a value if it is a node.
#[cycle(read)]
fn push_node(
    alloc: Global,
    source: &Source<'_>,
    role: Role,
    value: Element<'_>,
    children: &mut Items<Child>,
) -> Result<(), ReadError>
    ensures { AreAppended (data_of value.entry)
        (item_child (source_of source.now) role (data_of value.entry)) children.old children.new result }
{
    if let Some(name) = type_of(value) {
        let is_spread = name == "SpreadElement";
        let node = read_node(alloc, source, role, value)?;
        children.push(Child {
            role,
            is_spread,
            node,
        })?;
    }
    Ok(())
}

/// Reads a statement, with all nodes below.
impl<'t> ReadWith<Source<'t>> for Node {
    ghost use Rattle.modinfo_estree.specs.declared.role.Role.TheVariants.{Other};

    ghost reads = { λ source. reads_node (source_of source) Other };

    fn read_with(
        alloc: Global,
        source: &Source<'t>,
        value: Element<'_>,
    ) -> Result<Node, ReadError> {
        read_node(alloc, source, Role::Other, value)
    }
}
