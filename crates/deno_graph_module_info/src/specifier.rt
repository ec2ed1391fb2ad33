//! Specifiers in comments, with their ranges in the source.

ghost use Rattle.std.specs.Prelude.{◌≡◌, ◌≤◌, false, IfOk};
ghost use Rattle.deno_graph_source.specs.Source.{IsSpelled};
ghost use Rattle.deno_graph_base.specs.SourceRange.{IsTextRange};
ghost use Rattle.deno_graph_module_info.specs.Pragma.{positions_of, range_in_source, specifier_of_part};
ghost use Rattle.deno_graph_module_info.specs.internal.HeadPragma.{Covers};
ghost use Rattle.deno_graph_pragmas.specs.Match.{match_part_of};
ghost use Rattle.deno_graph_pragmas.specs.Split.{IsSliceOf, IsInQuotes};

use deno_graph_base::text::{PositionRange, SourceRange, SourceTextInfo};
use deno_graph_base::values::Text;
use deno_graph_info::analysis::SpecifierWithRange;
use deno_graph_pragmas::finders::Match;
use deno_graph_source::tree::DependencyComment;
use std::alloc::{AllocError, Global};
use std::ops::Range;

/// Returns the specifier `text` with its range in the source. `range` is its range in the text of the
/// comment, in bytes. Fails only if an allocation fails.
pub(crate) fn specifier_with_range(
    alloc: Global,
    text_info: &SourceTextInfo,
    comment: &DependencyComment,
    text: &str,
    range: Range<usize>,
    is_quoteless: bool,
) -> Result<SpecifierWithRange, AllocError>
    requires spelled { IsSpelled text_info.now comment.now }
    requires slice { IsSliceOf comment.now.text
        (record { text = text.now; start = range.start; end = range.end }) }
    requires quoted { is_quoteless ≡ false → IsInQuotes comment.now.text
        (record { text = text.now; start = range.start; end = range.end }) }
    ensures is { IfOk result (λ specifier. specifier ≡ specifier_of_part text_info.now comment.now
        (record { text = text.now; start = range.start; end = range.end }) is_quoteless) }
    ensures covers { IfOk result (Covers text_info.now is_quoteless) }
{
    Ok(SpecifierWithRange {
        text: Text::from_str(alloc, text)?,
        range: comment_source_to_position_range(comment.range, range, text_info, is_quoteless),
    })
}

/// Returns the specifier that a finder found in the text of a comment. Fails only if an allocation
/// fails.
pub(crate) fn specifier_of_match(
    alloc: Global,
    text_info: &SourceTextInfo,
    comment: &DependencyComment,
    found: Match<'_>,
    is_quoteless: bool,
) -> Result<SpecifierWithRange, AllocError>
    requires spelled { IsSpelled text_info.now comment.now }
    requires slice { IsSliceOf comment.now.text (match_part_of found) }
    requires quoted { is_quoteless ≡ false → IsInQuotes comment.now.text (match_part_of found) }
    ensures is { IfOk result (λ specifier.
        specifier ≡ specifier_of_part text_info.now comment.now (match_part_of found.entry) is_quoteless) }
    ensures covers { IfOk result (Covers text_info.now is_quoteless) }
{
    let (text, range) = (found.as_str(), found.range());
    specifier_with_range(alloc, text_info, comment, text, range, is_quoteless)
}

/// Returns the range in the source of a part of a comment's text. `inner_range` is the part's range
/// in bytes of that text, which begins two bytes after the start of the comment. The returned range
/// includes the quotes of a quoted specifier.
fn comment_source_to_position_range(
    comment_range: SourceRange,
    inner_range: Range<usize>,
    text_info: &SourceTextInfo,
    is_specifier_quoteless: bool,
) -> PositionRange
    requires range { IsTextRange text_info.now (range_in_source comment_range.start
        inner_range.start inner_range.end is_specifier_quoteless) }
    requires inside { (range_in_source comment_range.start
        inner_range.start inner_range.end is_specifier_quoteless).end ≤ comment_range.end }
    ensures { result ≡ positions_of text_info.now (range_in_source comment_range.start
        inner_range.start inner_range.end is_specifier_quoteless) }
{
    let text_start = comment_range.start + 2;
    let quotes_beside = if is_specifier_quoteless { 0 } else { 1 };
    let range = SourceRange {
        start: text_start - quotes_beside + inner_range.start,
        end: text_start + inner_range.end + quotes_beside,
    };
    PositionRange::from_source_range(range, text_info)
}
