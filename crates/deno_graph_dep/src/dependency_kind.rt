//! The kind of the dependency that a node is.
#![tactic(auto, unfolding(crate::proofs::Unfolded::node_meaning))]

ghost use Rattle.std.specs.Prelude.{◌≡◌, Some, option_map, slice_get};
ghost use Rattle.deno_graph_source.specs.Node.{kind_of};
ghost use Rattle.deno_graph_dep.specs.DependencyKind.{call_kind, export_kind, import_equals_kind, import_kind, is_require, phase_kind};

use deno_graph_info::analysis::{DynamicDependencyKind, StaticDependencyKind};
use deno_graph_source::tree::{Callee, ImportPhase, Kind, Node};

/// Returns the kind of a call with this callee and these children, or `None` where the call is none
/// of `import` or `require`.
pub(crate) fn call_kind(callee: Callee, children: &[Node]) -> Option<DynamicDependencyKind>
    ensures { result ≡ call_kind callee children.now }
{
    match callee {
        Callee::Import(phase) => Some(phase_kind(phase)),
        Callee::Expr => {
            if begins_with_require(children) {
                Some(DynamicDependencyKind::Require)
            } else {
                None
            }
        }
        Callee::Super => None,
    }
}

/// Returns the kind of a call of `import` with this phase.
fn phase_kind(phase: ImportPhase) -> DynamicDependencyKind
    ensures { result ≡ phase_kind phase }
{
    match phase {
        ImportPhase::Evaluation => DynamicDependencyKind::Import,
        ImportPhase::Source => DynamicDependencyKind::ImportSource,
        ImportPhase::Defer => DynamicDependencyKind::ImportDefer,
    }
}

/// Returns whether the first of these nodes is the identifier `require`.
fn begins_with_require(nodes: &[Node]) -> bool
    ensures { result ≡ is_require (option_map kind_of (slice_get nodes.now 0)) }
{
    match nodes.first() {
        Some(node) => is_require(node),
        None => false,
    }
}

/// Returns whether a node is the identifier `require`.
fn is_require(node: &Node) -> bool
    ensures { result ≡ is_require (Some (kind_of node.now)) }
{
    match &node.kind {
        Kind::Ident(name) => name.as_str() == "require",
        _ => false,
    }
}

/// Returns the kind of an import declaration.
pub(crate) fn import_kind(type_only: bool, phase: ImportPhase) -> StaticDependencyKind
    ensures { result ≡ import_kind type_only phase }
{
    match (type_only, phase) {
        (true, _) => StaticDependencyKind::ImportType,
        (false, ImportPhase::Evaluation) => StaticDependencyKind::Import,
        (false, ImportPhase::Source) => StaticDependencyKind::ImportSource,
        (false, ImportPhase::Defer) => StaticDependencyKind::ImportDefer,
    }
}

/// Returns the kind of an export with a specifier.
pub(crate) fn export_kind(type_only: bool) -> StaticDependencyKind
    ensures { result ≡ export_kind type_only }
{
    if type_only {
        StaticDependencyKind::ExportType
    } else {
        StaticDependencyKind::Export
    }
}

/// Returns the kind of an `import name = require(..)`.
pub(crate) fn import_equals_kind(type_only: bool, is_export: bool) -> StaticDependencyKind
    ensures { result ≡ import_equals_kind type_only is_export }
{
    match (type_only, is_export) {
        (true, _) => StaticDependencyKind::ImportType,
        (false, true) => StaticDependencyKind::ExportEquals,
        (false, false) => StaticDependencyKind::ImportEquals,
    }
}
