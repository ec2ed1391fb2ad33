//! The syntax of a text: its nodes as a flat list.

use crate::language::Language;
use crate::parser::{Parsed, Parser};
use crate::shape::FlatNode;
use deno_graph_source::tree::MediaType;
use modinfo_lexer::syntax_error::ReadError;
use modinfo_pieces::choice::Choice;
use std::alloc::Global;

/// The deepest nesting that is read: how many functions of the grammar may be inside one another.
const MAX_DEPTH: usize = 2000;

/// What a text consists of.
#[derive(Drop)]
pub struct Syntax {
    /// The nodes, each after those inside it.
    pub nodes: Vec<FlatNode>,
    /// What the parser has decided where the bytes don't, in the order of the text.
    pub choices: Vec<Choice>,
    /// Whether the text begins with a `#!` line.
    pub has_hashbang: bool,
}

/// Reads a text by the grammar of its media type, as a module; where that fails as a script, unless the
/// media type is one of modules alone. A syntax error is that of the module. JSON is one.
pub fn read(alloc: Global, text: &str, media_type: MediaType) -> Result<Syntax, ReadError> {
    let Some(language) = Language::of_media_type(media_type) else {
        return Err(ReadError::syntax("JSON has no syntax of modules", 0));
    };
    let error = match read_as(alloc, text, language) {
        Ok(syntax) => return Ok(syntax),
        Err(error) => error,
    };
    if !may_be_script(media_type) || matches!(error, ReadError::OutOfMemory) {
        return Err(error);
    }
    match read_as(alloc, text, language.of_script()) {
        Ok(syntax) => Ok(syntax),
        Err(ReadError::OutOfMemory) => Err(ReadError::OutOfMemory),
        Err(ReadError::Syntax(_)) => Err(error),
    }
}

/// Returns whether a file of a media type may be a script.
fn may_be_script(media_type: MediaType) -> bool {
    !matches!(
        media_type,
        MediaType::Mjs | MediaType::Mts | MediaType::Dmts
    )
}

/// Reads a text by the grammar of a language.
fn read_as(alloc: Global, text: &str, language: Language) -> Parsed<Syntax> {
    let mut parser = Parser::new(alloc, text, language)?;
    parser.program(MAX_DEPTH)?;
    Ok(parser.into_syntax())
}
