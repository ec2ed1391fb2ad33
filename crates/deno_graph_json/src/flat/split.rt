ghost use Rattle.std.specs.Prelude.{◌≡◌, ◌++◌, [], map, MatchOption};
ghost use Rattle.deno_graph_json.specs.Flat.{plain};
ghost use Rattle.deno_graph_json.specs.Value.{flat_value, plain_inside};
ghost use Rattle.deno_graph_json.specs.View.{value_of};
ghost use Rattle.deno_graph_json.specs.internal.Nodes.{BeginsValue};

use crate::flat::{Element, FlatNode};

/// Splits nodes into the value that they begin with and the nodes after it.
#[inline(always)]
pub fn split_value<'a>(nodes: &'a [FlatNode<'a>]) -> Option<(Element<'a>, &'a [FlatNode<'a>])>
    requires { BeginsValue (map plain nodes.now) }
    ensures { MatchOption result (nodes.entry.now ≡ [])
        (λ found. map plain nodes.entry.now ≡ flat_value (value_of found.0) ++ map plain found.1.now) }
{
    let (first, _) = nodes.split_first()?;
    let (nodes, rest) = nodes.split_at(nodes_inside(first) + 1);
    Some((Element { nodes }, rest))
}

/// Returns the number of nodes that the items or members of a value take, by the value's node.
#[inline(always)]
fn nodes_inside(node: &FlatNode<'_>) -> usize
    ensures { result ≡ plain_inside (plain node.now) }
{
    match node {
        FlatNode::Array { nodes, .. } | FlatNode::Object { nodes } => *nodes,
        _ => 0,
    }
}
