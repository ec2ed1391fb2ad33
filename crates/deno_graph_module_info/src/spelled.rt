//! Comments together with the text that has them.

ghost use Rattle.std.specs.Prelude.{All};
ghost use Rattle.deno_graph_source.specs.Source.{IsSpelled};

use deno_graph_base::text::SourceTextInfo;
use deno_graph_source::tree::DependencyComment;

/// Comments that the text has at their ranges.
#[derive(Clone, Copy)]
pub(crate) struct SpelledComments<'a> {
    pub(crate) text_info: &'a SourceTextInfo,
    pub(crate) comments: &'a [DependencyComment],
    ghost are_spelled: { All (IsSpelled text_info.now) comments.now },
}
