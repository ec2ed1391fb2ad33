#![tactic(auto, unfolding(deno_graph_source::specs::Node::kind_of, deno_graph_source::specs::Node::children_of))]

ghost use Rattle.std.specs.Prelude.{◌≡◌, ◌↔◌, IsTrue, All, false};
ghost use Rattle.deno_graph_source.specs.Node.{kind_of, children_of};
ghost use Rattle.deno_graph_module_info.specs.Script.{IsScript, is_function, is_module_item};
ghost use Rattle.deno_graph_module_info.specs.internal.ScriptSteps.{MakesModule, MakesModuleItself};

use deno_graph_source::tree::{Kind, Node, Program};

/// Returns whether a program is a script: nothing in the program makes the program a module.
pub(crate) fn is_script(program: &Program) -> bool
    ensures { IsTrue result ↔ IsScript program.now.body }
{
    for item in program.body.as_slice() {
        if is_module_item(item) {
            return false;
        }
        if makes_module(item, false) {
            return false;
        }
    }
    true
}

/// Returns whether an item is an import or an export, which only a module has.
fn is_module_item(item: &Node) -> bool
    ensures { result ≡ is_module_item (kind_of item.now) }
{
    matches!(
        item.kind,
        Kind::ImportDecl { .. }
            | Kind::NamedExport { .. }
            | Kind::ExportAll { .. }
            | Kind::ExportOther
    )
}

/// Returns whether a node or a node below it makes the program a module: an `import.meta`, or an
/// await outside functions.
fn makes_module(node: &Node, inside_function: bool) -> bool
    ensures { IsTrue result ↔ MakesModule inside_function node.now }
{
    if makes_module_itself(node, inside_function) {
        return true;
    }
    let inside_children = inside_function | is_function(node);
    for child in node.children.as_slice() {
        if makes_module(child, inside_children) {
            return true;
        }
    }
    false
}

/// Returns whether a node is an `import.meta`, or an await outside functions.
fn makes_module_itself(node: &Node, inside_function: bool) -> bool
    ensures { IsTrue result ↔ MakesModuleItself inside_function node.now }
{
    match node.kind {
        Kind::ImportMeta => true,
        Kind::Await => !inside_function,
        _ => false,
    }
}

/// Returns whether a node is a function.
fn is_function(node: &Node) -> bool
    ensures { result ≡ is_function (kind_of node.now) }
{
    matches!(node.kind, Kind::Function)
}
