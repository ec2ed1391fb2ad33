ghost use Rattle.std.specs.Prelude.{◌≡◌, IfSome};
ghost use Rattle.deno_graph_base.specs.SourceRange.{IsTextRange, slice_of};

use deno_graph_base::text::SourceRange;

/// Returns the part of a text at a range, or `None` if the range is reversed, ends after the text, or
/// starts or ends inside a character.
pub(crate) fn slice_at(text: &str, range: SourceRange) -> Option<&str>
    ensures is_range { IfSome result (λ _. IsTextRange text.now range) }
    ensures slice { IfSome result (λ slice. slice.now ≡ slice_of text.now range) }
{
    let (front, _) = text.split_at_checked(range.end)?;
    let (_, slice) = front.split_at_checked(range.start)?;
    Some(slice)
}
