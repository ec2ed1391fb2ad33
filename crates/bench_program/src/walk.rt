//! Builds a tree of import types, wide or deep, and walks through it.
//!
//!     bench_program walk wide COUNT          prints the number of nodes that a walk returns and enters
//!     bench_program walk deep COUNT          the same for nodes that are nested
//!     bench_program walk wide COUNT count    counts the nodes by plain recursion instead
//!     bench_program walk wide COUNT build    builds the tree, and doesn't walk

use crate::imports::program;
use crate::words::number;
use anyhow::{Context, Result};
use deno_graph_analysis::dep::Walk;
use deno_graph_source::text::{JsString, SourceRange};
use deno_graph_source::tree::{Kind, Node, Program, StrLit};
use deno_graph_source::values::Items;
use std::alloc::{AllocError, Global};

/// The range of all nodes, since there is no source.
const NOWHERE: SourceRange = SourceRange { start: 0, end: 0 };

pub fn run<R: AllocGlobal + Print>(rt: &R, words: &[&str]) -> Result<()> {
    let shape = *words.first().context("wide or deep?")?;
    let count = number(words, 1)?;
    let body = match shape {
        "deep" => deep(rt.alloc(), count)?,
        _ => wide(rt.alloc(), count)?,
    };
    let program = program(0, body);
    match words.get(2) {
        Some(&"build") => {}
        Some(_) => println!(rt; "{}", counted(program.body.as_slice()))?,
        None => {
            let (returned, entered) = walked(rt.alloc(), &program)?;
            println!(rt; "{returned} returned, {entered} entered")?;
        }
    }
    Ok(())
}

/// Returns the number of nodes that a walk returns, and the number of nodes that it enters.
fn walked(alloc: Global, program: &Program) -> Result<(usize, u64), AllocError> {
    let mut walk = Walk::new(alloc, program);
    let mut returned: usize = 0;
    'nodes: while let Some(_) = walk.step()? {
        returned = returned.saturating_add(1);
    }
    Ok((returned, walk.entered()))
}

/// Returns the number of nodes, by plain recursion.
fn counted(nodes: &[Node]) -> u64 {
    let mut count: u64 = 0;
    for node in nodes {
        count = count
            .saturating_add(1)
            .saturating_add(counted(node.children.as_slice()));
    }
    count
}

/// Returns `count` import types in one list.
fn wide(alloc: Global, count: usize) -> Result<Items<Node>, AllocError> {
    let mut nodes = Items::with_capacity(alloc, count)?;
    for _ in 0..count {
        nodes.push(import_type(alloc, Items::new(alloc))?)?;
    }
    Ok(nodes)
}

/// Returns `count` import types, each inside the next.
fn deep(alloc: Global, count: usize) -> Result<Items<Node>, AllocError> {
    let mut nodes = Items::new(alloc);
    for _ in 0..count {
        nodes = Items::from_item(alloc, import_type(alloc, nodes)?)?;
    }
    Ok(nodes)
}

/// Returns an import type of the empty text.
fn import_type(alloc: Global, children: Items<Node>) -> Result<Node, AllocError> {
    Ok(Node {
        range: NOWHERE,
        kind: Kind::ImportType {
            arg: StrLit {
                value: JsString::from_str(alloc, "")?,
                range: NOWHERE,
            },
            has_with: false,
        },
        children,
    })
}
