//! Two ways from a module to its `ModuleInfo`: `by_hand`, with a tree that is made in code, and
//! `by_parser`, with a parser that makes the tree from the text. docs/PARSERS.md explains both.
#![tactic(auto)]

mod by_hand;
mod by_parser;
mod tree;

use anyhow::Result;

fn main(rt: HostRuntime) -> Result<()> {
    let info = by_hand::info_json(rt.alloc())?;
    println!(rt; "{info}")?;
    by_parser::print_results(&rt)
}
