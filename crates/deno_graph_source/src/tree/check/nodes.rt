#![tactic(auto, unfolding(crate::specs::Node::kind_of, crate::specs::Node::children_of, crate::specs::Node::HasCountOfKind))]

ghost use Rattle.std.specs.Prelude.{◌≡◌, ◌↔◌, map, IfOk, IsTrue, MatchOption};
ghost use Rattle.deno_graph_source.specs.internal.Check.{JudgesArgs, JudgesBelow, JudgesBody, JudgesLiteral, JudgesNode, JudgesPart};
ghost use Rattle.deno_graph_source.specs.FaultPlace.{count_rule, BreaksRule};
ghost use Rattle.deno_graph_source.specs.Node.{HasClause, HasCountOfKind, IsShaped};

use crate::tree::check::finding::{NodeFinding, PartFinding};
use crate::tree::check::ranges::check_range;
use crate::tree::fault::SourceFault;
use crate::tree::fault_place::{NodePart, ShapeRule};
use crate::tree::node::{Arg, Callee, Kind, Node, Program};
use deno_graph_base::text::SourceRange;
use std::alloc::{AllocError, Global};

/// Finds a fault of the nodes of a program. Fails only if an allocation fails.
pub(crate) fn check_nodes(
    alloc: Global,
    text: &str,
    program: &Program,
) -> Result<Option<NodeFinding>, AllocError>
    ensures { IfOk result (JudgesBody text.now program.now) }
{
    for (number, node) in program.body.as_slice().iter().enumerate() {
        if let Some(found) = check_node(alloc, text, node)? {
            return Ok(Some(found.below(number)?));
        }
    }
    Ok(None)
}

/// Finds a fault of a node or of a node below it. Fails only if an allocation fails.
fn check_node(alloc: Global, text: &str, node: &Node) -> Result<Option<NodeFinding>, AllocError>
    ensures { IfOk result (JudgesBelow text.now node.now) }
{
    if let Err(at) = check_node_alone(text, node) {
        let reversed_path = Vec::new(alloc);
        return Ok(Some(NodeFinding { at, reversed_path }));
    }
    for (number, child) in node.children.as_slice().iter().enumerate() {
        if let Some(found) = check_node(alloc, text, child)? {
            return Ok(Some(found.below(number)?));
        }
    }
    Ok(None)
}

/// Returns an error if a node itself has a fault, whatever the nodes below it have.
fn check_node_alone(text: &str, node: &Node) -> Result<(), PartFinding>
    ensures { JudgesNode text.now node.now result }
{
    check_part(text, node.range, NodePart::Range)?;
    check_literal(text, &node.kind)?;
    check_args(text, node.kind.args())?;
    match broken_rule(node) {
        Some(rule) => Err(PartFinding {
            fault: SourceFault::Shape,
            part: NodePart::Children(rule),
        }),
        None => Ok(()),
    }
}

/// Returns an error if `range`, the range of a part of a node, has a fault.
fn check_part(text: &str, range: SourceRange, part: NodePart) -> Result<(), PartFinding>
    ensures { JudgesPart text.now range part result }
{
    match check_range(text, range) {
        Ok(()) => Ok(()),
        Err(fault) => Err(PartFinding { fault, part }),
    }
}

/// Returns an error if the range of the string literal of a kind has a fault.
fn check_literal(text: &str, kind: &Kind) -> Result<(), PartFinding>
    ensures { JudgesLiteral text.now kind.now result }
{
    match kind.literal() {
        Some(literal) => check_part(text, literal.range, NodePart::Literal),
        None => Ok(()),
    }
}

/// Returns an error if the range of an argument has a fault.
fn check_args(text: &str, args: &[Arg]) -> Result<(), PartFinding>
    ensures { JudgesArgs text.now args.now result }
{
    for (number, arg) in args.iter().enumerate() {
        check_part(text, arg.range, NodePart::Argument(number))?;
    }
    Ok(())
}

/// Returns the rule that the children of a node break, or `None` if they break none.
fn broken_rule(node: &Node) -> Option<ShapeRule>
    ensures { MatchOption result (IsShaped node.now) (BreaksRule node.now) }
{
    let children = node.children.as_slice();
    if !has_clause(node.kind.has_with(), children) {
        return Some(ShapeRule::WithClause);
    }
    if has_count(&node.kind, children.len()) {
        return None;
    }
    count_rule(&node.kind)
}

/// Returns the rule on the number of children of a kind, or `None` if every number is allowed.
fn count_rule(kind: &Kind) -> Option<ShapeRule>
    ensures { result ≡ count_rule kind.now }
{
    match kind {
        Kind::Template(_) => Some(ShapeRule::Template),
        Kind::Binary(_) => Some(ShapeRule::Binary),
        Kind::KeyValue(_) => Some(ShapeRule::KeyValue),
        Kind::Call { .. } => Some(ShapeRule::Call),
        _ => None,
    }
}

/// Returns whether a node of a kind may have `count` children.
fn has_count(kind: &Kind, count: usize) -> bool
    ensures { IsTrue result ↔ HasCountOfKind kind.now count }
{
    match kind {
        Kind::Template(quasis) => count < quasis.len() && quasis.len() - count == 1,
        Kind::Binary(_) => count == 2,
        Kind::KeyValue(_) => count > 0,
        Kind::Call {
            callee: Callee::Expr,
            args,
        } => count > args.len(),
        Kind::Call { args, .. } => count >= args.len(),
        _ => true,
    }
}

/// Returns whether the first child is the object literal of a `with` clause, or `has_with` is false.
fn has_clause(has_with: bool, children: &[Node]) -> bool
    ensures { IsTrue result ↔ HasClause has_with children.now }
{
    if !has_with {
        return true;
    }
    match children.first() {
        Some(clause) => clause.kind.is_object(),
        None => false,
    }
}
