//! Tables from texts to media types.

ghost use Rattle.std.specs.Prelude.{◌≡◌};
ghost use Rattle.deno_graph_source.specs.MediaType.{in_table};
ghost use Rattle.deno_graph_source.specs.internal.MediaType.{entries};

use crate::tree::media_type::MediaType;

/// Returns the media type of the first key that equals a text without regard to case, and `Other` if
/// none does.
#[tactic(auto, unfolding(crate::specs::MediaType::in_table))]
pub fn look_up(table: &[(&str, MediaType)], text: &str) -> MediaType
    ensures { result ≡ in_table (entries table.now) text.now }
{
    for (key, media_type) in table {
        if text.eq_ignore_ascii_case(key) {
            return *media_type;
        }
    }
    MediaType::Other
}
