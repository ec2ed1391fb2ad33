//! A cache of the white space after closing braces. Many lists of attributes can end at one brace:
//! the cache skips the white space after the brace once.

ghost use Rattle.std.specs.Prelude.{◌≡◌, IfOk};
ghost use Rattle.std.specs.Str.{chars, skip_leading_whitespace};
ghost use Rattle.deno_graph_jsdoc.specs.internal.Cache.{AreCachedSpaces};

use super::cached_lists::CachedList;
use super::parts::skip_space;
use std::alloc::{AllocError, Global};

/// White space in a text.
#[derive(Clone, Copy)]
pub(crate) struct CachedSpace<'a> {
    /// The number of bytes of the text from the white space on.
    left: usize,
    /// What follows the white space.
    rest: &'a str,
}

/// Returns the white space after each `}` that may close attributes or the object around them, by
/// ascending `left`. Returns nothing if `lists` is empty.
///
/// Fails if an allocation fails.
pub(crate) fn cached_spaces<'a>(
    alloc: Global,
    text: &'a str,
    lists: &[CachedList<'a>],
) -> Result<Vec<CachedSpace<'a>>, AllocError>
    ensures { IfOk result (λ cache. AreCachedSpaces (chars text.now) cache.items) }
{
    if lists.is_empty() {
        Ok(Vec::new(alloc))
    } else {
        spaces_from_end(alloc, text)
    }
}

/// Like `cached_spaces`, for any lists.
///
/// Fails if an allocation fails.
fn spaces_from_end<'a>(alloc: Global, text: &'a str) -> Result<Vec<CachedSpace<'a>>, AllocError>
    ensures { IfOk result (λ cache. AreCachedSpaces (chars text.now) cache.items) }
{
    let mut cache = Vec::new(alloc);
    let mut before = text;
    while let Some((sooner, _)) = before.rsplit_once('}') {
        let input = &text[sooner.len() + 1..];
        let rest = skip_space(input);
        if rest.len() < input.len() && may_close(sooner) {
            cache.push(CachedSpace {
                left: input.len(),
                rest,
            })?;
        }
        before = sooner;
    }
    Ok(cache)
}

/// Returns what follows the white space at the start of `input`. Looks it up where it is cached.
pub(crate) fn skip_cached<'a>(input: &'a str, cache: &[CachedSpace<'a>]) -> &'a str
    requires { AreCachedSpaces (chars input.now) cache.now }
    ensures { chars result.now ≡ skip_leading_whitespace (chars input.now) }
{
    let at = cache.partition_point(|space| space.left < input.len());
    if let Some(space) = cache.get(at) {
        if space.left == input.len() {
            return space.rest;
        }
    }
    skip_space(input)
}

/// Returns whether a `}` after the text may close attributes or the object around them.
fn may_close(text: &str) -> bool {
    let text = text.trim_end();
    text.ends_with('"') || text.ends_with('\'') || text.ends_with('}')
}
