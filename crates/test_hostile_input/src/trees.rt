//! Trees that are deeper or wider than real ones.

use deno_graph_source::text::{JsString, SourceRange};
use deno_graph_source::tree::{Arg, BinaryOp, Callee, ImportPhase, Kind, Node, StrLit};
use deno_graph_source::values::{Items, Text};
use std::alloc::{AllocError, Global};

/// The range of each node, since the source is empty.
const NOWHERE: SourceRange = SourceRange { start: 0, end: 0 };

/// A call of `import` with a string, below this number of other nodes.
pub fn nested(alloc: Global, count: usize) -> Result<Items<Node>, AllocError> {
    let argument = one(alloc, string(alloc, "a")?)?;
    let mut body = one(alloc, import(alloc, argument)?)?;
    for _ in 0..count {
        body = one(alloc, node_of(Kind::Other, body))?;
    }
    Ok(body)
}

/// This number of nested calls of `require`, with a string in the innermost.
pub fn calls(alloc: Global, count: usize) -> Result<Items<Node>, AllocError> {
    let mut argument = one(alloc, string(alloc, "a")?)?;
    for _ in 0..count {
        argument = one(alloc, require(alloc, argument)?)?;
    }
    Ok(argument)
}

/// A call of `import` with a string, plus this number of `x`.
pub fn operands(alloc: Global, count: usize) -> Result<Items<Node>, AllocError> {
    let sum = sum(alloc, count)?;
    one(alloc, import(alloc, sum)?)
}

/// A string, plus this number of `x`.
pub fn sum(alloc: Global, count: usize) -> Result<Items<Node>, AllocError> {
    let mut sum = one(alloc, string(alloc, "a")?)?;
    for _ in 0..count {
        sum.push(name(alloc, "x")?)?;
        sum = one(alloc, node_of(Kind::Binary(BinaryOp::Add), sum))?;
    }
    Ok(sum)
}

/// This number of import types of an empty text, side by side.
pub fn types(alloc: Global, count: usize) -> Result<Items<Node>, AllocError> {
    let mut body = Items::with_capacity(alloc, count)?;
    for _ in 0..count {
        let arg = StrLit {
            value: JsString::from_str(alloc, "")?,
            range: NOWHERE,
        };
        let kind = Kind::ImportType {
            arg,
            has_with: false,
        };
        body.push(node_of(kind, Items::new(alloc)))?;
    }
    Ok(body)
}

/// A call with one argument, the node of the list.
fn import(alloc: Global, argument: Items<Node>) -> Result<Node, AllocError> {
    let callee = Callee::Import(ImportPhase::Evaluation);
    let args = one(alloc, ARGUMENT)?;
    Ok(node_of(Kind::Call { callee, args }, argument))
}

/// A call of `require` with one argument, the node of the list.
fn require(alloc: Global, argument: Items<Node>) -> Result<Node, AllocError> {
    let callee = Callee::Expr;
    let args = one(alloc, ARGUMENT)?;
    let mut children = argument.into_vec();
    children.insert(0, name(alloc, "require")?)?;
    Ok(node_of(Kind::Call { callee, args }, Items::from_vec(children)))
}

const ARGUMENT: Arg = Arg {
    spread: false,
    range: NOWHERE,
};

fn string(alloc: Global, text: &str) -> Result<Node, AllocError> {
    let kind = Kind::Str(JsString::from_str(alloc, text)?);
    Ok(node_of(kind, Items::new(alloc)))
}

fn name(alloc: Global, text: &str) -> Result<Node, AllocError> {
    let kind = Kind::Ident(Text::from_str(alloc, text)?);
    Ok(node_of(kind, Items::new(alloc)))
}

fn node_of(kind: Kind, children: Items<Node>) -> Node {
    Node {
        range: NOWHERE,
        kind,
        children,
    }
}

fn one<T: Drop>(alloc: Global, item: T) -> Result<Items<T>, AllocError> {
    let mut items = Items::with_capacity(alloc, 1)?;
    items.push(item)?;
    Ok(items)
}
