//! The parser of declarations, as `@import { Type } from "./types.ts"`.

ghost use Rattle.std.specs.Prelude.{◌≡◌, ◌<◌, ◌≤◌, ◌↔◌, ℕ, List, IfOk, IfSome, IsOkAnd, IsSomeAnd};
ghost use Rattle.std.specs.Prelude.{IsTrue, codes, length, option_map};
ghost use Rattle.std.specs.Str.{chars};
ghost use Rattle.deno_graph_jsdoc.specs.JsDocGrammar.{◌·◌, Is, IsSpace, IsGap, IsIdent, IsClause};
ghost use Rattle.deno_graph_jsdoc.specs.JsDocGrammar.{IsNames, IsNamespace, IsName, IsWith};
ghost use Rattle.deno_graph_jsdoc.specs.JsDocGrammar.{Anything, NoSpace};
ghost use Rattle.deno_graph_jsdoc.specs.internal.Reading.{IsDeclarationEnd, IsSource, ReadsImport};
ghost use Rattle.deno_graph_jsdoc.specs.internal.Reading.{rest_and_import, ReadsImportAlone, Reads};
ghost use Rattle.deno_graph_jsdoc.specs.internal.Reading.{rest_of, rest_and_mode};
ghost use Rattle.deno_graph_jsdoc.specs.JsDocImport.{Import, IsDeclaration, import_of};
ghost use Rattle.deno_graph_jsdoc.specs.internal.Cache.{AreCached};
ghost use Rattle.deno_graph_jsdoc.specs.internal.Braces.{IsNextEnd, IsUnclosed, IsWithin, Keeps};

use super::attributes::block;
use super::cached_lists::CachedList;
use super::counted::counted_from;
use super::parts::{gap, ident, quote, skip_space, through_brace, token, word};
use crate::import::{JsDocImport, NoParse};
use deno_graph_base::values::TypeScriptTypesResolutionMode;

/// Parses the import declaration at the start of `input`, and returns the rest of `input` and the
/// import.
///
/// A declaration is `@import`, white space, what is imported (names in braces, `* as` a name, or a
/// name), `from`, a quoted specifier, and maybe `with` and attributes. Attributes that don't parse
/// belong to the rest.
pub fn parse_jsdoc_import_decl(input: &str) -> Result<(&str, JsDocImport<'_>), NoParse>
    ensures found { IfOk result
        (λ parsed. IsDeclaration (chars input.now) (import_of parsed.1) (chars parsed.0.now)) }
    ensures only { (import : Import) (rest : List ℕ)
        → IsDeclaration (chars input.now) import rest
        → IsOkAnd result (λ parsed.
        (import ≡ import_of parsed.1) × (rest ≡ chars parsed.0.now)) }
{
    let after = word(input, "@import").ok_or(NoParse)?;
    counted_from(input, after, after_import(after, &[])).ok_or(NoParse)
}

/// Parses a declaration from after its `@import` on, and returns the rest and the import.
pub(crate) fn after_import<'a>(
    input: &'a str,
    lists: &[CachedList<'a>],
) -> Option<(&'a str, JsDocImport<'a>)>
    requires { AreCached (chars input.now) lists.now }
    ensures parsed { ReadsImport IsDeclarationEnd (chars input.now) (rest_and_import result) }
    ensures within { IfSome result (λ parsed. IsWithin parsed.1 (length input.now)) }
{
    let from = after_clause(input)?;
    counted_from(input, from, source(from, lists))
}

/// The text after the `}` of names, and the import there. Many declarations can have their `}` in
/// common: the text is read once for all of them.
#[derive(Drop)]
pub(crate) struct NamesEnd<'a> {
    /// The text after the `}`.
    after: &'a str,
    /// The text after the `}` and white space.
    from: &'a str,
    /// The import at the start of `from`, and the rest after the import.
    source: Option<(&'a str, JsDocImport<'a>)>,
}

/// Returns the import of a declaration from after its `@import` on.
///
/// The last `}` of `input` is followed by `unclosed` bytes. `cache` is passed from one declaration
/// of a text to the next, so that each `}` is searched for once and each text after a `}` is read
/// once. `lists` has cached lists of attributes of that text.
pub(crate) fn find_import<'a>(
    input: &'a str,
    unclosed: usize,
    lists: &[CachedList<'a>],
    cache: &mut Option<NamesEnd<'a>>,
) -> Option<JsDocImport<'a>>
    requires lists { AreCached (chars input.now) lists.now }
    requires unclosed { IsUnclosed (chars input.now) unclosed }
    requires keeps { Keeps (chars input.now) cache.old }
    ensures found { ReadsImportAlone IsDeclarationEnd
        (chars input.now) (option_map import_of result) }
    ensures within { IfSome result (λ import. IsWithin import (length input.now)) }
    ensures keeps { Keeps (chars input.now) cache.new }
{
    let clause = gap(input)?;
    let Some(inside) = word(clause, "{") else {
        let (_, import) = after_import(input, lists)?;
        return Some(import);
    };
    advance(cache, inside, unclosed, lists);
    let end = cache.as_ref()?;
    let (_, import) = end.source.as_ref()?;
    Some(import.moved(input.len() - end.from.len()))
}

/// Sets `cache` to the next `}` of `input`, or to None if there is none.
fn advance<'a>(
    cache: &mut Option<NamesEnd<'a>>,
    input: &'a str,
    unclosed: usize,
    lists: &[CachedList<'a>],
)
    requires lists { AreCached (chars input.now) lists.now }
    requires unclosed { IsUnclosed (chars input.now) unclosed }
    requires keeps { Keeps (chars input.now) cache.old }
    ensures { IsNextEnd (chars input.now) cache.new }
{
    if !is_ahead(cache, input) {
        *cache = names_end(input, unclosed, lists);
    }
}

/// Returns whether the cached `}` is in `input`, and not before `input`.
fn is_ahead(cache: &Option<NamesEnd<'_>>, input: &str) -> bool
    ensures { IsTrue result
        ↔ IsSomeAnd cache.now (λ end. length end.after.now < length input.now) }
{
    match cache {
        Some(end) => end.after.len() < input.len(),
        None => false,
    }
}

/// Returns the text after the next `}` of `input` and the import there, or None if `input` has no
/// `}`.
fn names_end<'a>(input: &'a str, unclosed: usize, lists: &[CachedList<'a>]) -> Option<NamesEnd<'a>>
    requires lists { AreCached (chars input.now) lists.now }
    requires unclosed { IsUnclosed (chars input.now) unclosed }
    ensures { IsNextEnd (chars input.now) result }
{
    if input.len() <= unclosed {
        return None;
    }
    let after = through_brace(input)?;
    let from = skip_space(after);
    Some(NamesEnd {
        after,
        from,
        source: source(from, lists),
    })
}

/// Returns what follows white space, a clause and white space.
fn after_clause(input: &str) -> Option<&str>
    ensures { Reads NoSpace (λ _. IsGap · IsClause · IsSpace)
        (chars input.now) (rest_of result) }
{
    clause(gap(input)?)
}

/// Returns what follows the clause of a declaration and white space.
fn clause(input: &str) -> Option<&str>
    ensures { Reads NoSpace (λ _. IsClause · IsSpace) (chars input.now) (rest_of result) }
{
    if let Some(rest) = names(input) {
        return Some(rest);
    }
    if let Some(rest) = namespace(input) {
        return Some(rest);
    }
    name(input)
}

/// Returns what follows names in braces and white space.
fn names(input: &str) -> Option<&str>
    ensures { Reads NoSpace (λ _. IsNames · IsSpace) (chars input.now) (rest_of result) }
{
    Some(skip_space(through_brace(word(input, "{")?)?))
}

/// Returns what follows `* as`, a name and white space.
fn namespace(input: &str) -> Option<&str>
    ensures { Reads NoSpace (λ _. IsNamespace) (chars input.now) (rest_of result) }
{
    name(gap(word(token(input, "*")?, "as")?)?)
}

/// Returns what follows a name and white space.
fn name(input: &str) -> Option<&str>
    ensures { Reads NoSpace (λ _. IsName) (chars input.now) (rest_of result) }
{
    let (rest, _) = ident(input)?;
    gap(rest)
}

/// Parses a declaration from its `from` on, and returns the rest and the import.
pub(crate) fn source<'a>(
    input: &'a str,
    lists: &[CachedList<'a>],
) -> Option<(&'a str, JsDocImport<'a>)>
    requires { AreCached (chars input.now) lists.now }
    ensures parsed { ReadsImport IsSource (chars input.now) (rest_and_import result) }
    ensures within { IfSome result (λ parsed. IsWithin parsed.1 (length input.now)) }
{
    let quoted = token(input, "from")?;
    let (after, specifier) = quote(quoted)?;
    let after = skip_space(after);
    let (rest, resolution_mode) = with_attributes(after, lists).unwrap_or((after, None));
    let start = input.len() - quoted.len() + 1;
    let import = JsDocImport {
        specifier,
        specifier_range: start..start + specifier.len(),
        resolution_mode,
    };
    Some((rest, import))
}

/// Reads `with` and attributes in braces, and returns the rest and the mode of the attributes.
fn with_attributes<'a>(
    input: &'a str,
    lists: &[CachedList<'a>],
) -> Option<(&'a str, Option<TypeScriptTypesResolutionMode>)>
    requires { AreCached (chars input.now) lists.now }
    ensures { Reads Anything IsWith (chars input.now) (rest_and_mode result) }
{
    block(token(input, "with")?, lists)
}
