//! Laws of the descriptors that nodes have.

ghost use Rattle.std.specs.Prelude.{◌≡◌, All, List, Some, slice_get, true};
ghost use Rattle.deno_graph_source.specs.declared.tree.node.Node.{Node};
ghost use Rattle.deno_graph_source.specs.Comments.{FiledComments};
ghost use Rattle.deno_graph_source.specs.Node.{kind_of, nodes_in, nodes_of, IsShaped};
ghost use Rattle.deno_graph_source.specs.declared.tree.node.Program.{Program};
ghost use Rattle.deno_graph_source.specs.declared.tree.node.Arg.{Arg};
ghost use Rattle.deno_graph_source.specs.declared.tree.node.Callee.{Callee};
ghost use Rattle.deno_graph_source.specs.declared.tree.node.Kind.TheVariants.{Call};
ghost use Rattle.deno_graph_dep.specs.Argument.{expression};
ghost use Rattle.deno_graph_dep.specs.Dependencies.{AreDependencies};
ghost use Rattle.deno_graph_dep.specs.Descriptor.{DynamicDescriptor, Descriptor, dynamic_descriptor};
ghost use Rattle.deno_graph_dep.specs.DescriptorOf.{IsDescriptorOf};
ghost use Rattle.deno_graph_dep.specs.DependencyRules.{is_dependency};

/// Ensures that only a dependency has a descriptor.
pub fn only_dependencies_have_descriptors()
    ensures { (comments : FiledComments) (node : Node) (descriptor : Descriptor)
        → IsDescriptorOf comments node descriptor → is_dependency node ≡ true }
{}

/// Ensures that each dependency has a descriptor, if the node and all nodes below the node have the
/// children that their kinds need, as nodes of a valid source have.
pub fn each_dependency_has_a_descriptor()
    ensures { (comments : FiledComments) (node : Node)
        → is_dependency node ≡ true → All IsShaped (nodes_in node)
        → (descriptor : Descriptor) × IsDescriptorOf comments node descriptor }
{}

/// Ensures that a body has at most one list of descriptors, and has one if all nodes of the program
/// have the children that their kinds need.
pub fn each_body_has_dependencies()
    ensures some { (comments : FiledComments) (program : Program) → All IsShaped (nodes_of program)
        → (descriptors : List Descriptor) × AreDependencies comments program.body descriptors }
    ensures one { (comments : FiledComments) (body : List Node)
        (descriptors others : List Descriptor)
        → AreDependencies comments body descriptors → AreDependencies comments body others
        → descriptors ≡ others }
{}

/// Ensures that a node has at most one descriptor.
pub fn a_descriptor_is_unique()
    ensures { (comments : FiledComments) (node : Node) (descriptor other : Descriptor)
        → IsDescriptorOf comments node descriptor → IsDescriptorOf comments node other
        → descriptor ≡ other }
{}

/// Ensures that the descriptor of a call with a spread first argument has nothing of the argument.
pub fn a_spread_argument_is_unknown()
    ensures { (comments : FiledComments) (node : Node) (callee : Callee)
        (args : List Arg) (arg : Arg) (descriptor : DynamicDescriptor)
        → kind_of node ≡ Call callee args → slice_get args 0 ≡ Some arg
        → arg.spread ≡ true
        → IsDescriptorOf comments node (dynamic_descriptor descriptor)
        → descriptor.argument ≡ expression }
{}
