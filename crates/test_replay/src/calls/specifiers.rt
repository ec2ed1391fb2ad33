//! Calls on specifiers.

use crate::answer::push_line;
use crate::case_error::CaseError;
use deno_graph_source::tree::MediaType;
use std::alloc::Global;
use url::Url;

/// A line for each line of a text: the media type of the file at this URL, and the URL.
pub fn from_specifier(alloc: Global, text: &str) -> Result<String, CaseError> {
    let mut answer = String::new(alloc);
    for line in text.lines() {
        let specifier = Url::parse(alloc, line)?;
        let media_type = MediaType::from_specifier(&specifier);
        let found = format!(in alloc; "{media_type:?} {line}")?;
        push_line(&mut answer, "answer", found.as_str())?;
    }
    Ok(answer)
}
