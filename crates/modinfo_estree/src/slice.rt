//! Parts of a text.

ghost use Rattle.std.specs.Prelude.{◌≡◌, true, false, MatchOption};
ghost use Rattle.deno_graph_base.specs.SourceRange.{slice_of};
ghost use Rattle.modinfo_estree.specs.Range.{is_boundary, is_text_range};

use deno_graph_base::text::SourceRange;

/// Returns the part of a text at a range, or `None` if the range is none of the text.
pub fn slice_at(text: &str, range: SourceRange) -> Option<&str>
    ensures { MatchOption result (is_text_range text.now range ≡ false)
        (λ part. (is_text_range text.now range ≡ true) × (part.now ≡ slice_of text.now range)) }
{
    let is_inside = range.start <= range.end
        && is_boundary(text, range.start)
        && is_boundary(text, range.end);
    if is_inside {
        Some(&text[range.start..range.end])
    } else {
        None
    }
}

/// Returns whether an offset is the start of a character of a text, or the end of the text.
fn is_boundary(text: &str, at: usize) -> bool
    ensures { result ≡ is_boundary text.now at }
{
    text.is_char_boundary(at)
}
