ghost use Rattle.std.specs.Prelude.{◌∷◌, []};
ghost use Rattle.deno_graph_source.specs.internal.Check.{JudgesRanges};

use crate::tree::fault::SourceFault;
use deno_graph_base::text::SourceRange;

/// Returns an error if a range is reversed, isn't inside the text, or starts or ends inside a
/// character.
pub(crate) fn check_range(text: &str, range: SourceRange) -> Result<(), SourceFault>
    ensures { JudgesRanges text.now (range ∷ []) result }
{
    if range.start > range.end {
        return Err(SourceFault::RangeReversed);
    }
    if range.end > text.len() {
        return Err(SourceFault::RangeOutside);
    }
    if text.is_char_boundary(range.start) && text.is_char_boundary(range.end) {
        Ok(())
    } else {
        Err(SourceFault::RangeOffBoundary)
    }
}
