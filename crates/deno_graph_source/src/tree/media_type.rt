//! The kind of file that a source is.

mod data_url;
mod file_name;
mod table;

use url::Url;

/// The kind of file that a source is.
#[derive(Clone, Copy, Debug, PartialEq, Eq)]
pub enum MediaType {
    JavaScript,
    Jsx,
    Mjs,
    Cjs,
    TypeScript,
    Mts,
    Cts,
    Dts,
    Dmts,
    Dcts,
    Tsx,
    Json,
    Other,
}

impl MediaType {
    ghost use Rattle.std.specs.Prelude.{◌≡◌};
    ghost use Rattle.deno_graph_source.specs.MediaType.{is_typed, media_type_of};

    /// Returns the media type of the file at a URL, by the ending of the file's name, without regard
    /// to case. The query and the fragment don't count. A `data:` URL has the media type that its
    /// MIME type names. `Other` if no media type has the ending or the MIME type.
    #[tactic(auto, unfolding(crate::specs::MediaType::media_type_of))]
    pub fn from_specifier(specifier: &Url) -> MediaType
        ensures { result ≡ media_type_of specifier.now }
    {
        if specifier.scheme() == "data" {
            data_url::media_type_named(specifier.path())
        } else {
            file_name::media_type_at(specifier.path())
        }
    }

    /// Returns whether files of this type hold types, as TypeScript and its declaration files do, and
    /// JavaScript with JSX doesn't.
    pub fn is_typed(self) -> bool
        ensures { result ≡ is_typed self }
    {
        matches!(
            self,
            MediaType::TypeScript
                | MediaType::Mts
                | MediaType::Cts
                | MediaType::Dts
                | MediaType::Dmts
                | MediaType::Dcts
                | MediaType::Tsx
        )
    }
}
