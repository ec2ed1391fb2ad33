//! `Walk::step`.

use crate::case_error::CaseError;
use crate::failed_allocations::outcome::{Outcome, check};
use deno_graph_analysis::dep::Walk;
use deno_graph_source::text::{JsString, SourceRange};
use deno_graph_source::tree::{Kind, Node, Program, StrLit};
use deno_graph_source::values::Items;
use std::alloc::{AllocError, Global};

const NOWHERE: SourceRange = SourceRange { start: 0, end: 0 };

/// The number of nodes of the deep tree that are no dependencies.
const DEPTH: usize = 2000;

/// The steps through the deep tree: its dependencies, and two steps after the last one.
const STEPS: usize = 5;

const WIDTH: usize = 500_000;

/// The node that a step returns, and the number of entered nodes after the step.
type Returned<'a> = (Option<&'a Node>, u64);

/// A failed step skips no dependency, although it passed other nodes: the steps after it return the
/// same nodes as without the failure.
pub fn through_a_deep_tree(alloc: Global) -> Result<Outcome, CaseError> {
    let program = program(deep(alloc)?);
    step_through(alloc, &program)
}

fn step_through(alloc: Global, program: &Program) -> Result<Outcome, CaseError> {
    let expected = all_returned(alloc, &mut Walk::new(alloc, program))?;
    check(
        expected.iter().filter(|(node, _)| node.is_some()).count() == 3,
        "a dependency is missing",
    )?;
    take_steps(&mut Walk::new(alloc, program), &expected)
}

fn take_steps<'a>(walk: &mut Walk<'a>, expected: &[Returned<'a>]) -> Result<Outcome, CaseError> {
    let mut outcome = Outcome::Returned;
    let mut entered_before = 0;
    for (node, entered) in expected {
        let returned = match walk.step() {
            Ok(returned) => returned,
            Err(_) => {
                outcome = Outcome::OutOfMemory;
                step_again(walk, entered_before, *entered)?
            }
        };
        check(returned == *node, "a step returns another node")?;
        check(
            walk.entered() == *entered,
            "another number of nodes is entered",
        )?;
        entered_before = *entered;
    }
    Ok(outcome)
}

/// Takes a step after a failed step. The failed step entered at most the nodes up to the next
/// dependency.
fn step_again<'a>(
    walk: &mut Walk<'a>,
    before: u64,
    after: u64,
) -> Result<Option<&'a Node>, CaseError> {
    let is_between = before <= walk.entered() && walk.entered() <= after;
    check(is_between, "a failed step entered too many nodes")?;
    Ok(walk.step()?)
}

/// Each step enters one node, the first step too, although the tree is wide.
pub fn through_a_wide_tree(alloc: Global) -> Result<Outcome, CaseError> {
    let program = program(wide(alloc)?);
    let mut walk = Walk::new(alloc, &program);
    let outcome = step_into(&mut walk, program.body.first())?;
    step_to_the_end(&mut walk)?;
    Ok(outcome)
}

fn step_into(walk: &mut Walk<'_>, first: Option<&Node>) -> Result<Outcome, CaseError> {
    let (returned, outcome) = match walk.step() {
        Ok(returned) => (returned, Outcome::Returned),
        Err(_) => (walk.step()?, Outcome::OutOfMemory),
    };
    check(
        returned.is_some() && returned == first,
        "the first step returns another node",
    )?;
    outcome.provided(
        walk.entered() == 1,
        "the first step enters another number of nodes",
    )
}

/// Takes all steps after the first step.
fn step_to_the_end(walk: &mut Walk<'_>) -> Result<(), CaseError> {
    for count in 2..=WIDTH {
        check(walk.step()?.is_some(), "a step returns no node")?;
        check(
            walk.entered() == count as u64,
            "a step enters another number of nodes",
        )?;
    }
    check(
        walk.step()?.is_none() && walk.entered() == WIDTH as u64,
        "the step at the end returns or enters a node",
    )
}

fn all_returned<'a>(alloc: Global, walk: &mut Walk<'a>) -> Result<Vec<Returned<'a>>, AllocError> {
    let mut all = Vec::with_capacity(alloc, STEPS)?;
    for _ in 0..STEPS {
        let node = walk.step()?;
        all.push((node, walk.entered()))?;
    }
    Ok(all)
}

fn program(body: Items<Node>) -> Program {
    Program {
        range: NOWHERE,
        body,
        has_shebang: false,
    }
}

/// Returns an import type inside another, under many nodes that are no dependencies, and a third
/// import type beside those nodes.
fn deep(alloc: Global) -> Result<Items<Node>, AllocError> {
    let node = under_many(alloc, import_types(alloc)?)?;
    let mut body = Items::from_item(alloc, node)?;
    body.push(import_type(alloc, "c", Items::new(alloc))?)?;
    Ok(body)
}

/// Returns an import type inside another.
fn import_types(alloc: Global) -> Result<Node, AllocError> {
    let inner = import_type(alloc, "b", Items::new(alloc))?;
    import_type(alloc, "a", Items::from_item(alloc, inner)?)
}

/// Puts a node under many nodes that are no dependencies.
fn under_many(alloc: Global, mut node: Node) -> Result<Node, AllocError> {
    for _ in 0..DEPTH {
        node = under_one(alloc, node)?;
    }
    Ok(node)
}

fn under_one(alloc: Global, node: Node) -> Result<Node, AllocError> {
    let children = Items::from_item(alloc, node)?;
    Ok(Node::with_children(NOWHERE, Kind::Other, children))
}

/// Returns many import types of an empty text.
fn wide(alloc: Global) -> Result<Items<Node>, AllocError> {
    let mut body = Items::with_capacity(alloc, WIDTH)?;
    for _ in 0..WIDTH {
        body.push(import_type(alloc, "", Items::new(alloc))?)?;
    }
    Ok(body)
}

fn import_type(alloc: Global, text: &str, children: Items<Node>) -> Result<Node, AllocError> {
    Ok(Node {
        range: NOWHERE,
        kind: Kind::ImportType {
            arg: StrLit {
                value: JsString::from_str(alloc, text)?,
                range: NOWHERE,
            },
            has_with: false,
        },
        children,
    })
}
