//! The media type of a file by its name.

ghost use Rattle.std.specs.Prelude.{◌≡◌, ◌<◌, ◌==◌};
ghost use Rattle.std.specs.List.{before_last, after_last};
ghost use Rattle.deno_graph_source.specs.MediaType.{by_stem, ends_in_d, media_type_at};

use crate::tree::media_type::MediaType;
use crate::tree::media_type::table::look_up;

const ENDINGS: [(&str, MediaType); 9] = [
    ("js", MediaType::JavaScript),
    ("jsx", MediaType::Jsx),
    ("mjs", MediaType::Mjs),
    ("cjs", MediaType::Cjs),
    ("ts", MediaType::TypeScript),
    ("mts", MediaType::Mts),
    ("cts", MediaType::Cts),
    ("tsx", MediaType::Tsx),
    ("json", MediaType::Json),
];

/// Returns the media type of the file at a path, by the ending of the file's name.
pub fn media_type_at(path: &str) -> MediaType
    ensures { result ≡ media_type_at path.now }
{
    let (_folder, name) = split_last(path, '/');
    let (stem, ending) = split_last(name, '.');
    if stem.is_empty() {
        MediaType::Other
    } else {
        by_stem(stem, look_up(&ENDINGS, ending))
    }
}

/// Returns the media type of a file with this stem and an ending of this media type: one of
/// declarations if the stem ends in `.d`, or for TypeScript in `.d` and another ending.
fn by_stem(stem: &str, media_type: MediaType) -> MediaType
    ensures { result ≡ by_stem stem.now media_type }
{
    match media_type {
        MediaType::TypeScript if ends_in_d(stem) || ends_in_d(split_last(stem, '.').0) => {
            MediaType::Dts
        }
        MediaType::Mts if ends_in_d(stem) => MediaType::Dmts,
        MediaType::Cts if ends_in_d(stem) => MediaType::Dcts,
        _ => media_type,
    }
}

/// Returns whether a text ends in `.d` or `.D`.
#[tactic(auto, using(std::proofs::lemmas::Str::Pattern::ends_text))]
fn ends_in_d(text: &str) -> bool
    ensures { result ≡ ends_in_d text.now }
{
    text.ends_with(".d") || text.ends_with(".D")
}

/// Returns what is before and what is after the last separator: nothing and the text if the text has
/// no separator.
fn split_last(text: &str, separator: char) -> (&str, &str)
    requires { separator < 128 }
    ensures before { result.0.now ≡ before_last (λ b. b == separator) text.now }
    ensures after { result.1.now ≡ after_last (λ b. b == separator) text.now }
{
    text.rsplit_once(separator).unwrap_or(("", text))
}
