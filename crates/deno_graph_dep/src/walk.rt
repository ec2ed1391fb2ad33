//! The walk over the dependencies of a program, which can stop at each dependency and go on.

ghost use Rattle.std.specs.Borrow.{Bor};
ghost use Rattle.std.specs.List.{count_by};
ghost use Rattle.std.specs.Option.{is_some};
ghost use Rattle.std.specs.Prelude.{◌≡◌, ◌≤◌, ◌+◌, ◌++◌, IfOk, OnErr, List, Option, None, length};
ghost use Rattle.deno_graph_dep.specs.DependencyRules.{dependency_rules};
ghost use Rattle.deno_graph_dep.specs.Listing.{IsListing};
ghost use Rattle.deno_graph_source.specs.NodePath.{NodePath};
ghost use Rattle.deno_graph_source.specs.declared.tree.node.Node.{Node};
ghost use Rattle.deno_graph_dep.specs.Walk.{AreWalkSteps, IsWalkStep, WalkState};

use crate::stack::Stack;
use deno_graph_source::tree::{Node, Program};
use std::alloc::{AllocError, Global};
use std::marker::Model;

/// A walk over the nodes of a program that are dependencies, in tree order.
///
/// The walk keeps its own stack, so no tree is too deep for it. A walk that stops at a node has
/// entered no node after that one. A step that runs out of memory may have entered nodes after the
/// node that was returned last. A step that returns `None` has entered every node but those inside
/// an import or an export.
#[derive(Drop)]
pub struct Walk<'a> {
    program: &'a Program,
    stack: Stack<'a>,
}

impl<'a> Model for Walk<'a> {
    ghost use Rattle.std.specs.Coded.{codes};
    ghost use Rattle.deno_graph_source.specs.contracts.tree.node.Node as node;
    ghost use Rattle.deno_graph_dep.specs.Walk.{WalkState};
    ghost use Rattle.deno_graph_dep.specs.internal.WalkSteps.{IsWalkOf, state_of};

    ghost Value = { WalkState };

    ghost view = { λ walk. state_of walk.program.now walk.stack };

    ghost coded = { Prim.hlevel (codes, node.the_row.coded) };

    ghost invariant = { λ walk. IsWalkOf walk.program.now.body walk.stack };
}

impl<'a> Walk<'a> {
    /// Makes a walk at its start. Takes no memory.
    pub fn new(alloc: Global, program: &'a Program) -> Walk<'a>
        ensures program { result.program ≡ program.now }
        ensures to_come { IsListing dependency_rules program.now.body result.to_come }
        ensures entered { result.entered ≡ 0 }
    {
        Walk {
            program,
            stack: Stack::new(alloc, program.body.as_slice()),
        }
    }

    /// Returns the next node that is a dependency: a call after the dependencies inside it, any
    /// other node before them. Returns `None` at the end, and at each step from then on.
    ///
    /// Fails only if an allocation fails. The same nodes are then still to come, so the step can be
    /// tried again, and `entered` may have risen.
    pub fn step(&mut self) -> Result<Option<&'a Node>, AllocError>
        ensures program { self.new.program ≡ self.old.program }
        ensures step { IfOk result (IsWalkStep self.old self.new) }
        ensures err { OnErr result (self.new.to_come ≡ self.old.to_come) }
        ensures rises { self.old.entered ≤ self.new.entered }
    {
        self.stack.next_dependency()
    }

    /// Returns how many nodes were entered so far, or `u64::MAX` if they are more. Nodes inside an
    /// import or an export are not entered.
    pub fn entered(&self) -> u64
        ensures { result ≡ self.now.entered }
    {
        self.stack.entered
    }

    /// Returns the program of the walk.
    pub fn program(&self) -> &'a Program
        ensures { result.now ≡ self.now.program }
    {
        self.program
    }

    /// Ensures that the paths still to come are the end of the listing. So the paths that the walk
    /// has returned are the beginning of the listing.
    pub fn goes_on_with_the_rest(&self)
        ensures { (given : List NodePath)
            × IsListing dependency_rules self.now.program.body (given ++ self.now.to_come) }
    {
        let _ = &self.program;
    }

    /// Ensures that after a step that returned `None`, each step returns `None` and enters no node.
    /// This call does nothing; the contract holds of every walk.
    pub fn stays_at_its_end()
        ensures { (old end new : WalkState) (found : Option (Bor Node))
            → end.program ≡ old.program → new.program ≡ end.program
            → IsWalkStep old end None → IsWalkStep end new found → (found ≡ None) × (new ≡ end) }
    {}

    /// Ensures that a walk ends: each step that returns a node takes one of the finitely many paths
    /// still to come. This call does nothing; the contract holds of every walk.
    pub fn ends()
        ensures { (old new : WalkState) (found : List (Option (Bor Node)))
            → AreWalkSteps old found new
            → count_by is_some found + length new.to_come ≡ length old.to_come }
    {}
}
