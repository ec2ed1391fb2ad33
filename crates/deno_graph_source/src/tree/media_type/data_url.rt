//! The media type that a `data:` URL names.

ghost use Rattle.std.specs.Prelude.{◌≡◌};
ghost use Rattle.deno_graph_source.specs.MediaType.{essence, media_type_named};

use crate::tree::media_type::MediaType;
use crate::tree::media_type::table::look_up;

const MIME_TYPES: [(&str, MediaType); 15] = [
    ("application/javascript", MediaType::JavaScript),
    ("application/ecmascript", MediaType::JavaScript),
    ("application/x-javascript", MediaType::JavaScript),
    ("application/node", MediaType::JavaScript),
    ("text/javascript", MediaType::JavaScript),
    ("text/ecmascript", MediaType::JavaScript),
    ("application/typescript", MediaType::TypeScript),
    ("application/x-typescript", MediaType::TypeScript),
    ("text/typescript", MediaType::TypeScript),
    ("video/mp2t", MediaType::TypeScript),
    ("video/vnd.dlna.mpeg-tts", MediaType::TypeScript),
    ("text/jsx", MediaType::Jsx),
    ("text/tsx", MediaType::Tsx),
    ("application/json", MediaType::Json),
    ("text/json", MediaType::Json),
];

/// Returns the media type that a `data:` URL with this path names, by the MIME type before the first
/// comma. `Other` if the path has no comma.
pub fn media_type_named(path: &str) -> MediaType
    ensures { result ≡ media_type_named path.now }
{
    match path.split_once(',') {
        Some((mime_type, _data)) => look_up(&MIME_TYPES, essence(mime_type)),
        None => MediaType::Other,
    }
}

/// Returns a MIME type without its parameters and outer white space.
fn essence(mime_type: &str) -> &str
    ensures { result.now ≡ essence mime_type.now }
{
    match mime_type.split_once(';') {
        Some((front, _parameters)) => front.trim_ascii(),
        None => mime_type.trim_ascii(),
    }
}
