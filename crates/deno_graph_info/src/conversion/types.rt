//! The types that the comments of a dependency name.

ghost use Rattle.std.specs.Prelude.{◌≡◌, ◌≤◌, ◌<◌, ◌^◌, ◌+◌, IfOk, IfErr};
ghost use Rattle.deno_graph_info.specs.internal.ConvertFault.{IsColumnFault};
ghost use Rattle.deno_graph_info.specs.Types.{AreTypes, HasNoColumn};

use crate::analysis::SpecifierWithRange;
use crate::conversion::comment::Comment;
use crate::conversion::fault::ConvertFault;
use deno_graph_base::text::{Position, PositionRange};
use deno_graph_base::values::{Items, Text};
use deno_graph_pragmas::finders::find_deno_types;
use std::alloc::Global;
use std::ops::Range;

/// Returns the types that the last comment names, or None if it names none. Returns
/// `ColumnOverflow` if the types would end beyond the largest column.
pub(crate) fn types_named(
    alloc: Global,
    comments: &Items<Comment>,
) -> Result<Option<SpecifierWithRange>, ConvertFault>
    ensures ok { IfOk result (AreTypes comments.now) }
    ensures err { IfErr result (IsColumnFault (HasNoColumn comments.now)) }
{
    let Some(comment) = comments.last() else {
        return Ok(None);
    };
    let Some(found) = find_deno_types(comment.text.as_str()) else {
        return Ok(None);
    };
    let range = range_of_types(comment.range.start, found.range)?;
    let text = Text::from_str(alloc, found.text)?;
    Ok(Some(SpecifierWithRange { text, range }))
}

/// Returns the range of types that were found at the byte range `found` in the text of a comment
/// that begins at `start`. Adds two columns for the characters that begin the comment, and one on
/// each side for quotes, whether there are any or not.
fn range_of_types(start: Position, found: Range<usize>) -> Result<PositionRange, ConvertFault>
    requires { found.start ≤ found.end }
    ensures fits { IfOk result (λ range. start.character + found.end + 3 < 2 ^ 64) }
    ensures lines { IfOk result
        (λ range. (range.start.line ≡ start.line) × (range.end.line ≡ start.line)) }
    ensures columns { IfOk result
        (λ range. (range.start.character ≡ start.character + found.start + 1)
        × (range.end.character ≡ start.character + found.end + 3)) }
    ensures err { IfErr result (λ fault. (fault ≡ ConvertFault.ColumnOverflow)
        × (2 ^ 64 ≤ start.character + found.end + 3)) }
{
    let end = start
        .character
        .checked_add(found.end)
        .and_then(|column| column.checked_add(3));
    match end {
        Some(end) => Ok(PositionRange {
            start: Position {
                line: start.line,
                character: start.character + found.start + 1,
            },
            end: Position {
                line: start.line,
                character: end,
            },
        }),
        None => Err(ConvertFault::ColumnOverflow),
    }
}
