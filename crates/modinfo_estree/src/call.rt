//! Calls.

ghost use Rattle.std.specs.Prelude.{◌≡◌, ◌+◌, ◌++◌, IfOk, OnOk, if◌then◌else◌, length, map, nat_lt};
ghost use Rattle.deno_graph_json.specs.ObjectReader.{readable, value_of};
ghost use Rattle.deno_graph_json.specs.Read.Result.{IsReadResult};
ghost use Rattle.modinfo_estree.specs.Child.{nodes_in};
ghost use Rattle.modinfo_estree.specs.Kind as spec;
ghost use Rattle.modinfo_estree.specs.Parts.{parts_of};

use crate::child::{Child, first_in, push_around, push_nodes, split};
use crate::member::{has_name, has_type, is_true};
use crate::parentheses::extent_in;
use crate::phase::read_phase;
use crate::reading::Reading;
use crate::role::Group;
use deno_graph_json::ReadError;
use deno_graph_source::text::SourceRange;
use deno_graph_source::tree::{Arg, Callee, ImportPhase, Kind, Node};
use deno_graph_source::values::Items;
use std::alloc::{AllocError, Global};

impl<'a, 't, 'v> Reading<'a, 't, 'v> {
    /// Reads a call. An optional call is an `Other`.
    #[tactic(auto, unfolding(crate::specs::Kind::call))]
    pub fn call(&self, children: Vec<Child>) -> Result<Node, AllocError>
        ensures { IfOk result (λ node. node ≡ spec.call (parts_of self.now) children.items) }
    {
        match self.callee(&children) {
            Some(callee) => {
                let (callees, below) = split(self.alloc, children, Group::Callee)?;
                let mut nodes = Items::new(self.alloc);
                self.push_callee(callees, &mut nodes)?;
                let bounds = self.argument_bounds(nodes.as_slice());
                self.call_of(
                    callee,
                    bounds,
                    nodes_of_callee(self.alloc, callee, nodes),
                    below,
                )
            }
            None => self.whole(Kind::Other, children),
        }
    }

    /// Reads an `ImportExpression`.
    #[tactic(auto, using(deno_graph_json::proofs::Reading::reading), unfolding(crate::specs::Kind::reads_import_call))]
    pub fn import_call(&self, children: Vec<Child>) -> Result<Node, ReadError>
        ensures { IsReadResult (value_of self.now.members)
            (spec.reads_import_call (parts_of self.now) children.items) result }
    {
        let phase = read_phase(&self.members)?;
        let below = self.import_children(children)?;
        Ok(self.call_of(
            Callee::Import(phase),
            self.range,
            Items::new(self.alloc),
            below,
        )?)
    }

    /// Returns the children of an `ImportExpression`. Some trees have the options as `attributes` too.
    fn import_children(&self, children: Vec<Child>) -> Result<Vec<Child>, AllocError>
        ensures { IfOk result (λ below. below.items ≡ spec.import_children (parts_of self.now) children.items
            (nodes_in Group.Options children.items)) }
    {
        if first_in(&children, Group::Options).is_none() {
            return Ok(children);
        }
        let (_, below) = split(self.alloc, children, Group::Attributes)?;
        Ok(below)
    }

    /// Returns the callee of a call that isn't optional: `import`, if the call has an argument, or an
    /// expression.
    #[tactic(auto, unfolding(crate::specs::Kind::callee))]
    fn callee(&self, children: &[Child]) -> Option<Callee>
        ensures { result ≡ spec.callee (readable self.now.members) children.now }
    {
        if is_true(&self.members, "optional") || first_in(children, Group::Callee).is_none() {
            return None;
        }
        if self.is_import() && first_in(children, Group::Arguments).is_some() {
            return Some(Callee::Import(ImportPhase::Evaluation));
        }
        Some(Callee::Expr)
    }

    /// Returns whether a callee is `import`, as Babel has it, or as an identifier.
    fn is_import(&self) -> bool
        ensures { result ≡ spec.is_import (readable self.now.members) }
    {
        has_type(&self.members, "callee", "Import") || has_name(&self.members, "callee", "import")
    }

    /// Appends the nodes of the callee, with the parentheses around it.
    #[tactic(auto, unfolding(deno_graph_source::specs::Node::range_of))]
    fn push_callee(&self, callees: Vec<Child>, nodes: &mut Items<Node>) -> Result<(), AllocError>
        ensures { OnOk result (nodes.new ≡ nodes.old
            ++ map (spec.in_call (parts_of self.now) self.now.range) callees.items) }
    {
        for child in callees {
            let extent = extent_in(self.source, self.range, child.node.range);
            push_around(self.alloc, extent, child.node, nodes)?;
        }
        Ok(())
    }

    /// Returns where parentheses around arguments are: after the first token that follows the callee, which
    /// opens the arguments or type arguments, and before the end of the call.
    #[tactic(auto, unfolding(deno_graph_source::specs::Node::range_of))]
    fn argument_bounds(&self, callee: &[Node]) -> SourceRange
        ensures { result ≡ spec.argument_bounds (parts_of self.now) callee.now }
    {
        match callee.first() {
            Some(callee) => {
                let next = self.source.tokens.start(callee.range.end);
                SourceRange::new(after_byte(self.source.text, next), self.range.end)
            }
            None => self.range,
        }
    }

    /// Returns a call with the nodes of its callee before its arguments, and other nodes after them, as type
    /// arguments. Parentheses around arguments are within `bounds`.
    #[tactic(auto, unfolding(crate::specs::Kind::call_of, deno_graph_source::specs::Node::range_of))]
    fn call_of(
        &self,
        callee: Callee,
        bounds: SourceRange,
        mut nodes: Items<Node>,
        below: Vec<Child>,
    ) -> Result<Node, AllocError>
        ensures { IfOk result (λ node. node
            ≡ spec.call_of (parts_of self.now) callee bounds nodes below.items) }
    {
        let (arguments, others) = split(self.alloc, below, Group::Arguments)?;
        let args = self.push_arguments(bounds, arguments, &mut nodes)?;
        push_nodes(others, &mut nodes)?;
        Ok(self.node(Kind::Call { callee, args }, nodes))
    }

    /// Appends the nodes of arguments, each with the parentheses around it, and returns the arguments.
    #[tactic(auto, unfolding(deno_graph_source::specs::Node::range_of))]
    fn push_arguments(
        &self,
        bounds: SourceRange,
        arguments: Vec<Child>,
        nodes: &mut Items<Node>,
    ) -> Result<Items<Arg>, AllocError>
        ensures args { IfOk result (λ args. args
            ≡ map (spec.argument (parts_of self.now) bounds) arguments.items) }
        ensures nodes { OnOk result (nodes.new ≡ nodes.old
            ++ map (spec.in_call (parts_of self.now) bounds) arguments.items) }
    {
        let mut args = Items::new(self.alloc);
        for child in arguments {
            let range = extent_in(self.source, bounds, child.node.range);
            push_around(self.alloc, range, child.node, nodes)?;
            args.push(Arg {
                spread: child.is_spread,
                range,
            })?;
        }
        Ok(args)
    }
}

/// Returns the offset after the byte at an offset of a text, or the end of the text.
fn after_byte(text: &str, at: usize) -> usize
    ensures { result ≡ (if nat_lt at (length text.now) then at + 1 else length text.now) }
{
    if at < text.len() { at + 1 } else { text.len() }
}

/// Returns the nodes of a callee, of which an import has none.
fn nodes_of_callee(alloc: Global, callee: Callee, nodes: Items<Node>) -> Items<Node>
    ensures { result ≡ spec.nodes_of_callee callee nodes }
{
    match callee {
        Callee::Expr => nodes,
        _ => Items::new(alloc),
    }
}
