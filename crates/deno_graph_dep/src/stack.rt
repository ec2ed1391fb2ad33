//! The nodes that a walk has entered and not left yet.
#![tactic(auto, unfolding(crate::proofs::Unfolded::node_meaning))]

ghost use Rattle.std.specs.Prelude.{◌≡◌, ◌+◌, ◌-◌, ◌^◌, ◌≤◌, ◌++◌, ◌∷◌, [], min, IfOk, OnOk, OnErr, MatchOption, List};
ghost use Rattle.deno_graph_source.specs.declared.tree.node.Node.{Node};
ghost use Rattle.deno_graph_source.specs.declared.tree.node.Program.{Program};
ghost use Rattle.deno_graph_dep.specs.DependencyRules.{children_to_visit, dependency_rules};
ghost use Rattle.deno_graph_dep.specs.Walk.{IsWalkStep};
ghost use Rattle.deno_graph_dep.specs.internal.WalkSteps.{state_of};
ghost use Rattle.deno_graph_dep.specs.internal.Stack.{frame_of, Leaves, IsStackOf, comes_after, comes_before, to_come};

use crate::is_dependency::{is_after_inside, is_closed, is_dependency};
use deno_graph_source::tree::Node;
use std::alloc::{AllocError, Global};

/// An entered node, and the siblings after it.
#[derive(Clone, Copy)]
pub(crate) struct Frame<'a> {
    pub(crate) node: &'a Node,
    pub(crate) siblings: &'a [Node],
}

/// The entered nodes that are not left yet, the outermost first, and the nodes to enter next.
#[derive(Drop)]
pub(crate) struct Stack<'a> {
    pub(crate) frames: Vec<Frame<'a>>,
    pub(crate) nodes: &'a [Node],
    /// How many nodes were entered, up to the largest `u64`.
    pub(crate) entered: u64,
}

impl<'a> Stack<'a> {
    /// Makes a stack with no entered node. Takes no memory.
    pub(crate) fn new(alloc: Global, body: &'a [Node]) -> Stack<'a>
        ensures frames { result.frames.items ≡ [] }
        ensures nodes { result.nodes.now ≡ body.now }
        ensures entered { result.entered ≡ 0 }
    {
        Stack {
            frames: Vec::new(alloc),
            nodes: body,
            entered: 0,
        }
    }

    /// Enters a node, so that the nodes inside the node come next. An error leaves the stack
    /// unchanged.
    pub(crate) fn enter(&mut self, node: &'a Node, siblings: &'a [Node]) -> Result<(), AllocError>
        ensures frames { OnOk result (self.new.frames.items
            ≡ self.old.frames.items ++ frame_of node.entry siblings.entry ∷ []) }
        ensures nodes { OnOk result (self.new.nodes.now ≡ children_to_visit node.now) }
        ensures entered { OnOk result
            (self.new.entered ≡ min (self.old.entered + 1) (2 ^ 64 - 1)) }
        ensures err_frames { OnErr result (self.new.frames.items ≡ self.old.frames.items) }
        ensures err_nodes { OnErr result (self.new.nodes.now ≡ self.old.nodes.now) }
        ensures err_entered { OnErr result (self.new.entered ≡ self.old.entered) }
    {
        self.frames.push(Frame { node, siblings })?;
        self.entered = self.entered.saturating_add(1);
        self.nodes = inside(node);
        Ok(())
    }

    /// Leaves the innermost node, so that the siblings after the node come next. Returns `None` if
    /// no node is entered.
    pub(crate) fn leave(&mut self) -> Option<&'a Node>
        ensures leaves { Leaves self.old self.new result }
        ensures entered { self.new.entered ≡ self.old.entered }
    {
        let Frame { node, siblings } = self.frames.pop()?;
        self.nodes = siblings;
        Some(node)
    }

    /// Returns the next dependency in tree order, or `None` at the end. After an error the same
    /// dependencies are still to come.
    pub(crate) fn next_dependency(&mut self) -> Result<Option<&'a Node>, AllocError>
        ensures stays { (body : List Node) → IsStackOf body self.old → IsStackOf body self.new }
        ensures step { (program : Program) → IsStackOf program.body self.old
            → IfOk result (IsWalkStep (state_of program self.old) (state_of program self.new)) }
        ensures err { (body : List Node) → IsStackOf body self.old
            → OnErr result (to_come dependency_rules body self.new
            ≡ to_come dependency_rules body self.old) }
        ensures rises { (body : List Node) → IsStackOf body self.old
            → self.old.entered ≤ self.new.entered }
    {
        'nodes: loop {
            if let Some((node, siblings)) = self.nodes.split_first() {
                self.enter(node, siblings)?;
                if comes_before_inside(node) {
                    return Ok(Some(node));
                }
            } else {
                let Some(node) = self.leave() else {
                    return Ok(None);
                };
                if comes_after_inside(node) {
                    return Ok(Some(node));
                }
            }
        }
    }
}

/// Returns the nodes directly inside a node, or none if they are left unread.
fn inside(node: &Node) -> &[Node]
    ensures { result.now ≡ children_to_visit node.now }
{
    if is_closed(&node.kind) {
        &[]
    } else {
        node.children.as_slice()
    }
}

/// Returns whether a node is a dependency that comes before the dependencies inside it.
fn comes_before_inside(node: &Node) -> bool
    ensures { result ≡ comes_before dependency_rules node.now }
{
    !is_after_inside(&node.kind) && is_dependency(node)
}

/// Returns whether a node is a dependency that comes after the dependencies inside it.
fn comes_after_inside(node: &Node) -> bool
    ensures { result ≡ comes_after dependency_rules node.now }
{
    is_after_inside(&node.kind) && is_dependency(node)
}
