//! Where values end that by their last bytes alone could be operators or dots.

ghost use Rattle.std.specs.Prelude.{◌≡◌, [], ◌∷◌, false, map, slice_index_or, IfOk, OnOk};
ghost use Rattle.deno_graph_source.specs.Node.{nodes_in, range_of};
ghost use Rattle.modinfo_estree.specs.ValueEnds as spec;
ghost use Rattle.modinfo_estree.specs.internal.ValueEnds.{AreAdded};

use crate::slice::slice_at;
use deno_graph_source::text::SourceRange;
use deno_graph_source::tree::Node;
use std::alloc::{AllocError, Global};
use std::collections::BTreeSet;
use std::marker::Model;

/// The offsets in bytes at which values of a text end that by their last bytes alone could be operators or
/// dots: regular expressions without flags, numbers with a dot at the end, and tags of JSX, by the nodes of a
/// tree. Takes memory for each end, none for other bytes of the text.
#[derive(Drop)]
pub struct ValueEnds {
    /// The number of offsets of the text, its end among them.
    offsets: usize,
    ends: BTreeSet<usize>,
}

impl Model for ValueEnds {
    ghost use Rattle.std.specs.Prelude.{Bool, List};
    ghost use Rattle.modinfo_estree.specs.internal.ValueEnds.{table_of};

    ghost Value = { List Bool };

    ghost view = { λ found. table_of found.offsets found.ends };
}

impl ValueEnds {
    ghost use Rattle.modinfo_estree.specs.ValueEnds.{value_ends};

    /// Finds the ends of the values in a text with these statements. Fails only if an allocation fails.
    pub fn new(alloc: Global, text: &str, body: &[Node]) -> Result<ValueEnds, AllocError>
        ensures { IfOk result (λ found. found ≡ value_ends text.now body.now) }
    {
        let mut ends = BTreeSet::new(alloc);
        for node in body {
            add_node(text, node, &mut ends)?;
        }
        Ok(ValueEnds {
            offsets: text.len() + 1,
            ends,
        })
    }

    /// Returns whether such a value ends at an offset, `false` after the end of the text.
    pub fn contains(&self, at: usize) -> bool
        ensures { result ≡ slice_index_or self.now at false }
    {
        at < self.offsets && self.ends.contains(&at)
    }
}

/// Adds where a node and all nodes below it end with such a value.
fn add_node(text: &str, node: &Node, ends: &mut BTreeSet<usize>) -> Result<(), AllocError>
    ensures { OnOk result (AreAdded text.now (map range_of (nodes_in node.now)) ends.old ends.new) }
{
    add_range(text, node.range, ends)?;
    for child in node.children.as_slice() {
        add_node(text, child, ends)?;
    }
    Ok(())
}

/// Adds the end of a range of a text, if such a value ends there.
fn add_range(text: &str, range: SourceRange, ends: &mut BTreeSet<usize>) -> Result<(), AllocError>
    ensures { OnOk result (AreAdded text.now (range ∷ []) ends.old ends.new) }
{
    if has_value(text, range) {
        ends.insert(range.end)?;
    }
    Ok(())
}

/// Returns whether the text at a range, if the text has this range, ends with such a value.
fn has_value(text: &str, range: SourceRange) -> bool
    ensures { result ≡ spec.has_value text.now range }
{
    match slice_at(text, range) {
        Some(slice) => is_value(slice.as_bytes()),
        None => false,
    }
}

/// Returns whether the text of a node ends with such a value.
fn is_value(slice: &[u8]) -> bool
    ensures { result ≡ spec.is_value slice.now }
{
    slice.ends_with(b"/") || slice.ends_with(b".") || is_tag(slice)
}

/// Returns whether the text of a node is an end tag of JSX, or ends with a tag without children.
fn is_tag(slice: &[u8]) -> bool
    ensures { result ≡ spec.is_tag slice.now }
{
    slice.starts_with(b"</") || slice.ends_with(b"/>") && !slice.ends_with(b"*/>")
}
