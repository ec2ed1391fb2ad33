//! Laws of listings, and of their order.

ghost use Rattle.std.specs.Prelude.{◌≡◌, ◌≢◌, ◌⊎◌, ◌↔◌, ◌++◌, List};
ghost use Rattle.deno_graph_source.specs.declared.tree.node.Node.{Node};
ghost use Rattle.deno_graph_dep.specs.DependencyNodes.{dependency_nodes_below, dependency_nodes_in, own_after, own_before};
ghost use Rattle.deno_graph_dep.specs.DependencyRules.{children_to_visit};
ghost use Rattle.deno_graph_dep.specs.Listing.{IsListing, Precedes, Rules};
ghost use Rattle.deno_graph_source.specs.NodePath.{NodePath};

/// Ensures that a body has exactly one listing.
pub fn one_listing()
    ensures some { (rules : Rules) (body : List Node)
        → (paths : List NodePath) × IsListing rules body paths }
    ensures only { (rules : Rules) (body : List Node) (paths others : List NodePath)
        → IsListing rules body paths → IsListing rules body others → paths ≡ others }
{}

/// Ensures that the tree order is a strict total order: of two different paths exactly one precedes
/// the other.
pub fn tree_order()
    ensures one { (rules : Rules) (body : List Node) (p q : NodePath)
        → p ≢ q → Precedes rules body p q ⊎ Precedes rules body q p }
    ensures not_both { (rules : Rules) (body : List Node) (p q : NodePath)
        → Precedes rules body p q → ¬ Precedes rules body q p }
    ensures transitive { (rules : Rules) (body : List Node) (p q r : NodePath)
        → Precedes rules body p q → Precedes rules body q r → Precedes rules body p r }
{}

/// Ensures that a dependency comes right before or right after the dependencies inside the node.
pub fn own_nodes_and_inside()
    ensures { (node : Node)
        → dependency_nodes_in node
        ≡ own_before node ++ dependency_nodes_below (children_to_visit node) ++ own_after node }
{}
