//! A cache of the lists of attributes in a text. An import can stand in the attributes of another
//! one, so that many lists end at one brace: the cache reads each attribute once.

ghost use Rattle.std.specs.Prelude.{IfOk, IfSome};
ghost use Rattle.std.specs.Str.{chars};
ghost use Rattle.deno_graph_jsdoc.specs.JsDocGrammar.{Anything};
ghost use Rattle.deno_graph_jsdoc.specs.internal.Cache.{AreCached};
ghost use Rattle.deno_graph_jsdoc.specs.internal.Reading.{IsModeBlockEnd, Reads, rest_and_mode};

use super::attributes::attributes;
use super::parts::skip_space;
use deno_graph_base::values::TypeScriptTypesResolutionMode;
use std::alloc::{AllocError, Global};

/// A list of attributes, from one of the attributes on.
#[derive(Clone, Copy)]
pub(crate) struct CachedList<'a> {
    /// The number of bytes of the text from that attribute on.
    left: usize,
    /// What follows the closing brace, and the mode. None if attributes up to a brace don't parse
    /// there.
    pub(crate) read: Option<(&'a str, Option<TypeScriptTypesResolutionMode>)>,
}

/// Returns the list from each attribute on that may follow another attribute, by ascending `left`.
/// Returns no lists if the text has no `import`.
///
/// Fails if an allocation fails.
pub(crate) fn cached_lists<'a>(
    alloc: Global,
    text: &'a str,
) -> Result<Vec<CachedList<'a>>, AllocError>
    ensures { IfOk result (λ cache. AreCached (chars text.now) cache.items) }
{
    if text.contains("import") {
        lists_from_end(alloc, text)
    } else {
        Ok(Vec::new(alloc))
    }
}

/// Like `cached_lists`, but also for a text without `import`. It goes from the end of the text to
/// the start, so that each list reads one attribute and looks the others up.
///
/// Fails if an allocation fails.
fn lists_from_end<'a>(alloc: Global, text: &'a str) -> Result<Vec<CachedList<'a>>, AllocError>
    ensures { IfOk result (λ cache. AreCached (chars text.now) cache.items) }
{
    let mut cache = Vec::new(alloc);
    let mut before = text;
    while let Some((sooner, _)) = before.rsplit_once(',') {
        if ends_with_value(sooner) {
            let input = skip_space(&text[sooner.len() + 1..]);
            let read = attributes(input, cache.as_slice());
            cache.push(CachedList {
                left: input.len(),
                read,
            })?;
        }
        before = sooner;
    }
    Ok(cache)
}

/// Returns the list of attributes that starts at the start of `input`, or None if it isn't cached.
pub(crate) fn list_at<'a>(cache: &[CachedList<'a>], input: &str) -> Option<CachedList<'a>>
    requires { AreCached (chars input.now) cache.now }
    ensures { IfSome result (λ list. Reads Anything IsModeBlockEnd
        (chars input.now) (rest_and_mode list.read)) }
{
    let at = cache.partition_point(|list| list.left < input.len());
    let list = *cache.get(at)?;
    if list.left == input.len() {
        Some(list)
    } else {
        None
    }
}

/// Returns whether a text ends with `:` and a quoted text, so that another attribute may follow.
fn ends_with_value(text: &str) -> bool {
    let text = text.trim_end();
    closes_value(text, '"') || closes_value(text, '\'')
}

/// Returns whether a text ends with `:` and a text between two `mark`s.
fn closes_value(text: &str, mark: char) -> bool {
    text.strip_suffix(mark)
        .and_then(|inside| inside.rsplit_once(mark))
        .is_some_and(|(before, _)| before.trim_end().ends_with(':'))
}
