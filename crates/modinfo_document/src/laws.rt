//! Laws of the definitions that contracts cite.

ghost use Rattle.std.specs.Prelude.{◌≡◌, ◌↔◌, List, Some};
ghost use Rattle.std.specs.List.{Contains};
ghost use Rattle.serde_json.specs.Data.{Data};
ghost use Rattle.deno_graph_source.specs.NodePath.{NodePath, node_at};
ghost use Rattle.deno_graph_source.specs.declared.tree.node.Node.{Node};
ghost use Rattle.modinfo_document.specs.Document.{Contents, reads_document};
ghost use Rattle.modinfo_document.specs.NodeKinds.{KindAt, LeadsToKind, kinds_of_body};
ghost use Rattle.modinfo_document.specs.Place.{LeadsToNode, node_path};

/// Ensures that the kinds of a body are those of the nodes to which paths lead, each with its path.
pub fn kinds_are_at_their_paths()
    ensures { (body : List Node) (at : KindAt)
        → Contains (kinds_of_body body) at ↔ LeadsToKind body at }
{}

/// Ensures that the path of a node leads to the value that the node was read from.
pub fn nodes_are_at_their_paths()
    ensures { (value : Data) (contents : Contents) → reads_document value ≡ Some contents
        → (path : NodePath) (node : Node) → node_at contents.program.body path ≡ Some node
        → LeadsToNode value (node_path path) node }
{}
