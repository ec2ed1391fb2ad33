//! The ranges of comments in the order of the text, each once.

ghost use Rattle.std.specs.Prelude.{◌≡◌, IfOk, OnOk, filter};
ghost use Rattle.modinfo_estree.specs.Comments.{apart, are_in_lines, begins_other, comment_ranges};
ghost use Rattle.modinfo_estree.specs.Comments.{in_order, is_comment, is_in_line, is_other, range_start};
ghost use Rattle.modinfo_estree.specs.Order.{sorted_by_start};

use crate::marks::has_line_break;
use crate::slice::slice_at;
use deno_graph_base::text::SourceRange;
use deno_graph_base::values::Items;
use std::alloc::{AllocError, Global};

/// Returns the ranges of the comments of a text, by those that a document has: in the order of the text,
/// equal ranges once. After two that share a byte there are no others, so that the text of few comments is
/// copied before a check of the source reports the two. `#!` lines and comments as in HTML are passed over, if
/// each is in a line and no two share a byte; otherwise their ranges are returned, so that the check reports
/// them. Fails only if an allocation fails.
#[tactic(auto, unfolding(crate::specs::Comments::comment_ranges))]
pub fn comment_ranges(
    alloc: Global,
    text: &str,
    ranges: Items<SourceRange>,
) -> Result<Vec<SourceRange>, AllocError>
    ensures { IfOk result (λ kept. kept.items ≡ comment_ranges text.now ranges) }
{
    let (comments, others) = split(alloc, text, ranges.into_vec())?;
    let others = in_order(alloc, others)?;
    if are_in_lines(text, others.as_slice()) {
        in_order(alloc, comments)
    } else {
        Ok(others)
    }
}

/// Splits ranges into those of comments, and those at which a `#!` line or a comment as in HTML begins.
fn split(
    alloc: Global,
    text: &str,
    ranges: Vec<SourceRange>,
) -> Result<(Vec<SourceRange>, Vec<SourceRange>), AllocError>
    ensures comments { IfOk result (λ parts. parts.0.items ≡ filter (is_comment text.now) ranges.items) }
    ensures others { IfOk result (λ parts. parts.1.items ≡ filter (is_other text.now) ranges.items) }
{
    let mut comments = Vec::new(alloc);
    let mut others = Vec::new(alloc);
    for range in ranges {
        if is_other(text, range) {
            others.push(range)?;
        } else {
            comments.push(range)?;
        }
    }
    Ok((comments, others))
}

/// Returns ranges in the order of the text, equal ones once, up to the first two that share a byte.
fn in_order(alloc: Global, ranges: Vec<SourceRange>) -> Result<Vec<SourceRange>, AllocError>
    ensures { IfOk result (λ kept. kept.items ≡ in_order ranges.items) }
{
    let mut sorted = ranges;
    sort_by_start(&mut sorted)?;
    apart(alloc, sorted)
}

/// Returns whether a `#!` line or a comment as in HTML begins at a range of a text.
#[tactic(auto, unfolding(crate::specs::Comments::is_other))]
fn is_other(text: &str, range: SourceRange) -> bool
    ensures { result ≡ is_other text.now range }
{
    match slice_at(text, range) {
        Some(bytes) => begins_other(bytes),
        None => false,
    }
}

/// Returns whether bytes begin as a `#!` line or a comment as in HTML does.
fn begins_other(bytes: &str) -> bool
    ensures { result ≡ begins_other bytes.now }
{
    bytes.starts_with("#!") || bytes.starts_with("<!--") || bytes.starts_with("-->")
}

/// Returns whether each range is in a line, and begins where the one before it ends, or after it.
fn are_in_lines(text: &str, ranges: &[SourceRange]) -> bool
    ensures { result ≡ are_in_lines text.now 0 ranges.now }
{
    let mut from = 0;
    for range in ranges {
        if range.start < from || !is_in_line(text, *range) {
            return false;
        }
        from = range.end;
    }
    true
}

/// Returns whether a text has a range, without a line terminator.
fn is_in_line(text: &str, range: SourceRange) -> bool
    ensures { result ≡ is_in_line text.now range }
{
    match slice_at(text, range) {
        Some(bytes) => !has_line_break(bytes),
        None => false,
    }
}

/// Puts ranges into the order of their starts. Ranges that start at the same byte keep their order.
fn sort_by_start(ranges: &mut Vec<SourceRange>) -> Result<(), AllocError>
    ensures { OnOk result (ranges.new.items ≡ sorted_by_start range_start ranges.old.items) }
{
    ranges.sort_by_key(|range| range.start)
}

/// Returns ranges that are in order, equal ones once, up to the first that begins before the one before it
/// ends.
#[tactic(auto, unfolding(crate::specs::Comments::apart_after))]
fn apart(alloc: Global, ranges: Vec<SourceRange>) -> Result<Vec<SourceRange>, AllocError>
    ensures { IfOk result (λ kept. kept.items ≡ apart ranges.items) }
{
    let mut kept = Vec::new(alloc);
    let mut others = ranges.into_iter();
    let Some(first) = others.next() else {
        return Ok(kept);
    };
    kept.push(first)?;
    let mut last = first;
    for next in others {
        if last == next {
            continue;
        }
        kept.push(next)?;
        if next.start < last.end {
            return Ok(kept);
        }
        last = next;
    }
    Ok(kept)
}
