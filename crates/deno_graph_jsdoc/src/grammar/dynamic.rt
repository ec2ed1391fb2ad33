//! The parser of dynamic imports, as `{import("./types.ts").Type}`.

ghost use Rattle.std.specs.Prelude.{◌≡◌, ◌≤◌, ℕ, List, IfOk, IfSome, IsOkAnd, codes, length};
ghost use Rattle.std.specs.Prelude.{option_map};
ghost use Rattle.std.specs.Str.{chars};
ghost use Rattle.deno_graph_jsdoc.specs.JsDocGrammar.{◌·◌, Is, IsSpace, IsOptions, IsSecond};
ghost use Rattle.deno_graph_jsdoc.specs.JsDocGrammar.{IsUpTo, Anything, NoSpace};
ghost use Rattle.deno_graph_jsdoc.specs.internal.Reading.{HasArguments, IsDynamicEnd, ReadsImport};
ghost use Rattle.deno_graph_jsdoc.specs.internal.Reading.{rest_and_import, ReadsImportAlone, Reads};
ghost use Rattle.deno_graph_jsdoc.specs.internal.Reading.{rest_of, rest_and_mode};
ghost use Rattle.deno_graph_jsdoc.specs.JsDocImport.{Import, IsDynamicImport, import_of};
ghost use Rattle.deno_graph_jsdoc.specs.internal.Cache.{AreCached, AreCachedSpaces};
ghost use Rattle.deno_graph_jsdoc.specs.internal.Braces.{IsUnclosed, IsWithin};

use super::attributes::block;
use super::cached_lists::CachedList;
use super::cached_spaces::{CachedSpace, skip_cached};
use super::counted::counted_from;
use super::parts::{quote, skip_space, through_brace, token, word};
use crate::import::{JsDocImport, NoParse};
use deno_graph_base::values::TypeScriptTypesResolutionMode;

/// Parses the dynamic import in braces at the start of `input`, and returns the rest of `input` and
/// the import.
///
/// A dynamic import is `{`, any text without `}` up to the first `import`, an argument list of a
/// quoted specifier and maybe attributes, and any text up to `}`. Only the first `import` is tried.
pub fn parse_jsdoc_dynamic_import(input: &str) -> Result<(&str, JsDocImport<'_>), NoParse>
    ensures found { IfOk result
        (λ parsed. IsDynamicImport (chars input.now) (import_of parsed.1) (chars parsed.0.now)) }
    ensures only { (import : Import) (rest : List ℕ)
        → IsDynamicImport (chars input.now) import rest
        → IsOkAnd result (λ parsed.
        (import ≡ import_of parsed.1) × (rest ≡ chars parsed.0.now)) }
{
    let after = first_import(input).ok_or(NoParse)?;
    counted_from(input, after, after_import(after)).ok_or(NoParse)
}

/// Parses a dynamic import from after its `import` on, and returns the rest and the import.
pub(crate) fn after_import(input: &str) -> Option<(&str, JsDocImport<'_>)>
    ensures parsed { ReadsImport IsDynamicEnd (chars input.now) (rest_and_import result) }
    ensures within { IfSome result (λ parsed. IsWithin parsed.1 (length input.now)) }
{
    let (rest, import) = arguments(input, &[], &[])?;
    let rest = through_brace(rest)?;
    Some((rest, import))
}

/// Returns the import of a dynamic import from after its `import` on.
///
/// The last `}` of `input` is followed by `unclosed` bytes, so that the closing `}` isn't searched
/// for. `lists` and `spaces` are caches of a text that ends with `input`.
pub(crate) fn find_import<'a>(
    input: &'a str,
    unclosed: usize,
    lists: &[CachedList<'a>],
    spaces: &[CachedSpace<'a>],
) -> Option<JsDocImport<'a>>
    requires lists { AreCached (chars input.now) lists.now }
    requires spaces { AreCachedSpaces (chars input.now) spaces.now }
    requires unclosed { IsUnclosed (chars input.now) unclosed }
    ensures found { ReadsImportAlone IsDynamicEnd (chars input.now) (option_map import_of result) }
    ensures within { IfSome result (λ import. IsWithin import (length input.now)) }
{
    let (rest, import) = arguments(input, lists, spaces)?;
    (rest.len() > unclosed).then_some(import)
}

/// Returns what follows a brace and the first `import` after the brace, or None if a `}` is between.
fn first_import(input: &str) -> Option<&str>
    ensures { Reads Anything (λ _. Is (codes "{") · IsUpTo (codes "import"))
        (chars input.now) (rest_of result) }
{
    up_to_import(word(input, "{")?)
}

/// Returns what follows the first `import`, or None if a `}` is before it. The search ends at the
/// first `}`.
fn up_to_import(input: &str) -> Option<&str>
    ensures { Reads Anything (λ _. IsUpTo (codes "import")) (chars input.now) (rest_of result) }
{
    let unclosed = match input.split_once('}') {
        Some((unclosed, _)) => unclosed,
        None => input,
    };
    // The first `import` before the `}` is also the first of the whole input.
    let (_, _) = unclosed.split_once("import")?;
    let (_, rest) = input.split_once("import")?;
    Some(rest)
}

/// Parses the argument list after an `import`, and returns what follows the list and the import.
pub(crate) fn arguments<'a>(
    input: &'a str,
    lists: &[CachedList<'a>],
    spaces: &[CachedSpace<'a>],
) -> Option<(&'a str, JsDocImport<'a>)>
    requires lists { AreCached (chars input.now) lists.now }
    requires spaces { AreCachedSpaces (chars input.now) spaces.now }
    ensures parsed { ReadsImport HasArguments (chars input.now) (rest_and_import result) }
    ensures within { IfSome result (λ parsed. IsWithin parsed.1 (length input.now)) }
{
    let quoted = token(skip_space(input), "(")?;
    let (after, specifier) = quote(quoted)?;
    let after = skip_space(after);
    let (after, resolution_mode) = options(after, lists, spaces).unwrap_or((after, None));
    let rest = word(skip_cached(after, spaces), ")")?;
    let start = input.len() - quoted.len() + 1;
    let import = JsDocImport {
        specifier,
        specifier_range: start..start + specifier.len(),
        resolution_mode,
    };
    Some((rest, import))
}

/// Reads a comma and the second argument, and returns what follows and the mode of the attributes.
fn options<'a>(
    input: &'a str,
    lists: &[CachedList<'a>],
    spaces: &[CachedSpace<'a>],
) -> Option<(&'a str, Option<TypeScriptTypesResolutionMode>)>
    requires lists { AreCached (chars input.now) lists.now }
    requires spaces { AreCachedSpaces (chars input.now) spaces.now }
    ensures { Reads Anything IsOptions (chars input.now) (rest_and_mode result) }
{
    let rest = token(input, ",")?;
    let rest = token(rest, "{")?;
    let rest = token(rest, "with")?;
    let (rest, mode) = block(token(rest, ":")?, lists)?;
    Some((word(skip_cached(rest, spaces), "}")?, mode))
}
