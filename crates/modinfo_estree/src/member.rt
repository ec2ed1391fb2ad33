//! The members of a node that aren't nodes.

ghost use Rattle.std.specs.Prelude.{◌≡◌, codes, option_map};
ghost use Rattle.serde_json.specs.Find.{get_member};
ghost use Rattle.deno_graph_json.specs.Data.{data_of};
ghost use Rattle.deno_graph_json.specs.ObjectReader.{readable, value_of};
ghost use Rattle.deno_graph_json.specs.Read.Result.{IsReadResult};
ghost use Rattle.modinfo_estree.specs.Member as spec;
ghost use Rattle.modinfo_estree.specs.Member.{range_between};
ghost use Rattle.modinfo_estree.specs.Source.{byte_in};

use crate::offsets::Offsets;
use crate::source::NodeMembers;
use deno_graph_json::{Element, Expected, ReadError, View};
use deno_graph_source::text::SourceRange;

/// Returns the type of a node, or None if the value is no node: nodes are the objects whose member `type`
/// is a string.
#[inline(always)]
pub fn type_of(value: Element<'_>) -> Option<&str>
    ensures { option_map (λ text. text.now) result ≡ spec.type_of (data_of value.entry) }
{
    value.members()?.get("type")?.as_str()
}

/// Returns the text of a member that is a string.
#[inline(always)]
pub fn text_at<'v>(members: &NodeMembers<'v>, name: &str) -> Option<&'v str>
    ensures { option_map (λ text. text.now) result ≡ spec.text_at name.now (readable members.now) }
{
    members.get(name)?.as_str()
}

/// Returns whether a member is this string.
#[inline(always)]
pub fn has_text(members: &NodeMembers<'_>, name: &str, text: &str) -> bool
    ensures { result ≡ spec.has_text name.now text.now (readable members.now) }
{
    match text_at(members, name) {
        Some(found) => found == text,
        None => false,
    }
}

/// Returns whether a member is a node of this type.
pub fn has_type(members: &NodeMembers<'_>, name: &str, wanted: &str) -> bool
    ensures { result ≡ spec.has_type name.now wanted.now (readable members.now) }
{
    match members.get(name) {
        Some(value) => match type_of(value) {
            Some(found) => found == wanted,
            None => false,
        },
        None => false,
    }
}

/// Returns whether a member is an identifier of this name.
pub fn has_name(members: &NodeMembers<'_>, name: &str, wanted: &str) -> bool
    ensures { result ≡ spec.has_name name.now wanted.now (readable members.now) }
{
    match name_at(members, name) {
        Some(found) => found == wanted,
        None => false,
    }
}

/// Returns the name of the identifier that a member is.
fn name_at<'v>(members: &NodeMembers<'v>, name: &str) -> Option<&'v str>
    ensures { option_map (λ text. text.now) result ≡ spec.name_at name.now (readable members.now) }
{
    members.get(name)?.members()?.get("name")?.as_str()
}

/// Returns whether a member is true.
#[inline(always)]
pub fn is_true(members: &NodeMembers<'_>, name: &str) -> bool
    ensures { result ≡ spec.is_true name.now (readable members.now) }
{
    match members.get(name) {
        Some(value) => matches!(value.view(), View::Bool(true)),
        None => false,
    }
}

/// Returns whether a member is an array with an item.
pub fn has_items(members: &NodeMembers<'_>, name: &str) -> bool
    ensures { result ≡ spec.has_items name.now (readable members.now) }
{
    match members.get(name) {
        Some(value) => match value.elements() {
            Some(items) => items.len() > 0,
            None => false,
        },
        None => false,
    }
}

/// Returns whether a member is there, and not null.
pub fn is_present(members: &NodeMembers<'_>, name: &str) -> bool
    ensures { result ≡ spec.is_present name.now (readable members.now) }
{
    match members.get(name) {
        Some(value) => !value.is_null(),
        None => false,
    }
}

/// Reads the range of a node or a comment: `range`, or `start` and `end`.
pub fn read_range(
    offsets: &Offsets<'_>,
    members: &NodeMembers<'_>,
) -> Result<SourceRange, ReadError>
    ensures { IsReadResult (value_of members.now)
        (spec.reads_range (byte_in offsets.now) (readable members.now)) result }
{
    let mut found = [None; 3];
    members.find(&["range", "start", "end"], &mut found);
    read_found_range(offsets, members, found[0], found[1], found[2])
}

/// Like `read_range`, for members that `find` found.
pub fn read_found_range(
    offsets: &Offsets<'_>,
    members: &NodeMembers<'_>,
    range: Option<Element<'_>>,
    start: Option<Element<'_>>,
    end: Option<Element<'_>>,
) -> Result<SourceRange, ReadError>
    requires range { option_map data_of range ≡ get_member (codes "range") (readable members.now) }
    requires start { option_map data_of start ≡ get_member (codes "start") (readable members.now) }
    requires end { option_map data_of end ≡ get_member (codes "end") (readable members.now) }
    ensures { IsReadResult (value_of members.now)
        (spec.reads_range (byte_in offsets.now) (readable members.now)) result }
{
    match range {
        Some(value) => match value.as_pair() {
            Some((start, end)) => Ok(range_between(offsets, start as usize, end as usize)),
            None => Err(members.member_error("range", Expected::Offsets)),
        },
        None => read_start_and_end(offsets, members, start, end),
    }
}

/// Reads a range from the members `start` and `end`.
#[tactic(auto, using(deno_graph_json::proofs::Reading::reading), unfolding(crate::specs::Member::reads_start_and_end))]
fn read_start_and_end(
    offsets: &Offsets<'_>,
    members: &NodeMembers<'_>,
    start: Option<Element<'_>>,
    end: Option<Element<'_>>,
) -> Result<SourceRange, ReadError>
    requires start { option_map data_of start ≡ get_member (codes "start") (readable members.now) }
    requires end { option_map data_of end ≡ get_member (codes "end") (readable members.now) }
    ensures { IsReadResult (value_of members.now)
        (spec.reads_start_and_end (byte_in offsets.now) (readable members.now)) result }
{
    let start = members.read_found("start", start)?;
    let end = members.read_found("end", end)?;
    Ok(range_between(offsets, start, end))
}

/// Returns the range in bytes between two offsets of the tree.
fn range_between(offsets: &Offsets<'_>, start: usize, end: usize) -> SourceRange
    ensures { result ≡ range_between (byte_in offsets.now) start end }
{
    SourceRange::new(offsets.byte_offset(start), offsets.byte_offset(end))
}
