ghost use Rattle.std.specs.Prelude.{map, IfOk, All};
ghost use Rattle.deno_graph_source.specs.Node.{nodes_of, IsShaped};
ghost use Rattle.deno_graph_dep.specs.Dependencies.{AreDependencies};
ghost use Rattle.deno_graph_dep.specs.DependencyNodes.{dependency_nodes_below};
ghost use Rattle.deno_graph_dep.specs.Descriptor.{descriptor_seen};
ghost use Rattle.deno_graph_dep.specs.SpelledArguments.{SpellArguments};
ghost use Rattle.deno_graph_dep.specs.DescriptorOf.{AreDescriptorsOf};

use crate::Walk;
use crate::descriptor::DependencyDescriptor;
use crate::descriptor_of::descriptor_of;
use deno_graph_source::tree::{Comments, Program};
use std::alloc::{AllocError, Global};

/// Returns the descriptor of each dependency of a module, in tree order: a call after the
/// dependencies inside it, any other node before them. Nodes inside imports and exports are not
/// read. Fails only if an allocation fails.
pub fn analyze_program_dependencies<'a>(
    alloc: Global,
    program: &'a Program,
    comments: &'a Comments,
) -> Result<Vec<DependencyDescriptor<'a>>, AllocError>
    requires { All IsShaped (nodes_of program.now) }

    // One descriptor for each path of the listing, in its order.
    ensures listing { IfOk result (λ descriptors.
        AreDependencies comments.now program.now.body (map descriptor_seen descriptors.items)) }

    // The same nodes in the same order as plain recursion visits them.
    ensures recursive { IfOk result (λ descriptors.
        AreDescriptorsOf comments.now (dependency_nodes_below program.now.body)
        (map descriptor_seen descriptors.items)) }

    // For any texts of the unknown parts, each argument spells the text of its expression.
    ensures spells { IfOk result (λ descriptors.
        SpellArguments program.now.body (map descriptor_seen descriptors.items)) }
{
    let mut walk = Walk::new(alloc, program);
    let mut descriptors = Vec::new(alloc);
    'nodes: while let Some(node) = walk.step()? {
        let Some(descriptor) = descriptor_of(alloc, comments, node)? else {
            continue;
        };
        descriptors.push(descriptor)?;
    }
    Ok(descriptors)
}
