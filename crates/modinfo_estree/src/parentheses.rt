//! Parentheses around the callees and the arguments of calls. The tree of a parser has none, so the text has
//! to tell.

ghost use Rattle.std.specs.Prelude.{◌≡◌};
ghost use Rattle.modinfo_estree.specs.Parentheses.{extent_in_call, pair_around};
ghost use Rattle.modinfo_estree.specs.Source.{source_of};

use crate::source::Source;
use deno_graph_source::text::SourceRange;

/// The most pairs of parentheses around a callee or an argument that are read.
const PAIR_LIMIT: usize = 256;

/// Returns the range of the callee or of an argument of a call with the parentheses around it, which are
/// within `bounds`: at most the innermost `PAIR_LIMIT` pairs.
pub fn extent_in(source: &Source<'_>, bounds: SourceRange, range: SourceRange) -> SourceRange
    ensures { result ≡ extent_in_call (source_of source.now) bounds range }
{
    let mut extent = range;
    let mut left = PAIR_LIMIT;
    while left > 0 {
        match pair_around(source, bounds, extent) {
            Some(outer) => extent = outer,
            None => return extent,
        }
        left -= 1;
    }
    extent
}

/// Returns the range of the pair of parentheses around a range, if they are the next tokens on both sides,
/// the first at the start of `bounds` or after it, and the second before the end of `bounds`.
fn pair_around(source: &Source<'_>, bounds: SourceRange, range: SourceRange) -> Option<SourceRange>
    ensures { result ≡ pair_around (source_of source.now) bounds range }
{
    let bytes = source.text.as_bytes();
    let start = source.tokens.end(range.start).checked_sub(1)?;
    let end = source.tokens.start(range.end);
    let is_pair = bytes.get(start) == Some(&b'(') && bytes.get(end) == Some(&b')');
    if is_pair && bounds.start <= start && end + 1 < bounds.end {
        Some(SourceRange::new(start, end + 1))
    } else {
        None
    }
}
