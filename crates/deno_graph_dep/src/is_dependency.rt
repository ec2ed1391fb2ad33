//! Which nodes are dependencies, and in which order: decided by the node alone, not by the nodes
//! around it.
#![tactic(auto, unfolding(crate::proofs::Unfolded::node_meaning))]

ghost use Rattle.std.specs.Prelude.{◌≡◌};
ghost use Rattle.deno_graph_dep.specs.DependencyRules.{is_closed, is_dependency, is_after_inside, is_relative, may_name_module};

use crate::dependency_kind::call_kind;
use deno_graph_source::tree::{Kind, Node};

/// Returns whether a node is a dependency, by its kind and its children.
pub fn is_dependency(node: &Node) -> bool
    ensures { result ≡ is_dependency node.now }
{
    match &node.kind {
        Kind::ImportDecl { .. } | Kind::ExportAll { .. } | Kind::ImportType { .. } => true,
        Kind::NamedExport { src, .. } => src.is_some(),
        Kind::ImportEquals { external, .. } => external.is_some(),
        Kind::ModuleDecl { name: Some(name) } => may_name_module(name.value.to_str_lossy()),
        Kind::Call { callee, args } => {
            call_kind(*callee, node.children.as_slice()).is_some() && args.get(0).is_some()
        }
        _ => false,
    }
}

/// Returns whether a module declaration with this name may add to a module. A name with `*` is a
/// pattern for many modules, unless the name is a relative path.
pub(crate) fn may_name_module(name: &str) -> bool
    ensures { result ≡ may_name_module name.now }
{
    !name.as_bytes().contains(&b'*') || is_relative(name)
}

/// Returns whether a name begins like a path: with `./`, `../` or `/`.
fn is_relative(name: &str) -> bool
    ensures { result ≡ is_relative name.now }
{
    let bytes = name.as_bytes();
    bytes.starts_with(b"./") || bytes.starts_with(b"../") || bytes.starts_with(b"/")
}

/// Returns whether the nodes inside a node of this kind are left unread.
pub fn is_closed(kind: &Kind) -> bool
    ensures { result ≡ is_closed kind.now }
{
    matches!(
        kind,
        Kind::ImportDecl { .. }
            | Kind::NamedExport { .. }
            | Kind::ExportAll { .. }
            | Kind::ImportEquals { .. }
    )
}

/// Returns whether a node of this kind comes after the dependencies inside it.
pub fn is_after_inside(kind: &Kind) -> bool
    ensures { result ≡ is_after_inside kind.now }
{
    matches!(kind, Kind::Call { .. })
}
