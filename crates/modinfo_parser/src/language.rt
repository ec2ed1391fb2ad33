use deno_graph_source::tree::MediaType;

/// Which grammar a text is read by.
#[derive(Clone, Copy, Debug, PartialEq, Eq)]
pub(crate) struct Language {
    pub(crate) is_typescript: bool,
    pub(crate) has_jsx: bool,
    /// Whether the text is a script, not a module: `await` is a name outside async functions.
    pub(crate) is_script: bool,
}

impl Language {
    /// Returns the grammar of a media type, `None` for JSON. Other files are read as JavaScript.
    pub(crate) fn of_media_type(media_type: MediaType) -> Option<Language> {
        match media_type {
            MediaType::Json => None,
            _ => Some(Language {
                is_typescript: media_type.is_typed(),
                has_jsx: !media_type.is_typed() || media_type == MediaType::Tsx,
                is_script: false,
            }),
        }
    }

    /// Returns the same grammar for scripts.
    pub(crate) fn of_script(self) -> Language {
        Language {
            is_typescript: self.is_typescript,
            has_jsx: self.has_jsx,
            is_script: true,
        }
    }
}
