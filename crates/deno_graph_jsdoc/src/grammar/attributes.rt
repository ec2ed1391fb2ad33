//! Parsers of import attributes in braces. Each function returns what follows the part that it
//! reads, or None if the input doesn't begin with that part.

ghost use Rattle.std.specs.Prelude.{◌≡◌, List, ◌∷◌, [], ◌++◌, option_and_then};
ghost use Rattle.std.specs.Str.{chars};
ghost use Rattle.deno_graph_jsdoc.specs.JsDocGrammar.{IsKey, IsAttribute, IsModeBlock, Attribute};
ghost use Rattle.deno_graph_jsdoc.specs.JsDocGrammar.{resolution_mode_value, mode_of, Anything};
ghost use Rattle.deno_graph_jsdoc.specs.internal.Cache.{AreCached};
ghost use Rattle.deno_graph_jsdoc.specs.internal.Reading.{IsModeBlockEnd, Reads, EndOfIdent};
ghost use Rattle.deno_graph_jsdoc.specs.internal.Reading.{rest_and_text, rest_and_mode};
ghost use Rattle.deno_graph_jsdoc.specs.internal.Reading.{rest_and_attribute, chars_of};
ghost use Rattle.deno_graph_base.specs.ResolutionMode.{mode_named};

use super::cached_lists::{CachedList, list_at};
use super::parts::{ident, quote, skip_space, token, word};
use deno_graph_base::values::TypeScriptTypesResolutionMode;

/// Reads attributes in braces, and returns the mode that the first `resolution-mode` names.
///
/// `cache` has the lists of attributes of a text that ends with `input`, or some of these lists.
pub(crate) fn block<'a>(
    input: &'a str,
    cache: &[CachedList<'a>],
) -> Option<(&'a str, Option<TypeScriptTypesResolutionMode>)>
    requires { AreCached (chars input.now) cache.now }
    ensures { Reads Anything IsModeBlock (chars input.now) (rest_and_mode result) }
{
    let rest = token(input, "{")?;
    match word(rest, "}") {
        Some(rest) => Some((rest, None)),
        None => attributes(rest, cache),
    }
}

/// Reads one attribute or more and the closing brace, and returns the mode that the first
/// `resolution-mode` names.
pub(crate) fn attributes<'a>(
    input: &'a str,
    cache: &[CachedList<'a>],
) -> Option<(&'a str, Option<TypeScriptTypesResolutionMode>)>
    requires { AreCached (chars input.now) cache.now }
    ensures { Reads Anything IsModeBlockEnd (chars input.now) (rest_and_mode result) }
{
    let mut rest = input;
    let mut name = None;
    loop {
        let (after, (key, value)) = attribute(rest)?;
        name = name_after(name, key, value);
        let after = skip_space(after);
        if let Some(end) = word(after, "}") {
            return Some((end, mode_of(name)));
        }
        rest = token(after, ",")?;
        if let Some(list) = list_at(cache, rest) {
            let (end, mode) = list.read?;
            return Some((end, mode_with(name, mode)));
        }
    }
}

/// Returns the mode of a list of attributes, of which some are read and the rest are cached: `name`
/// is the first `resolution-mode` of those that are read, and `mode` is the mode of the rest.
fn mode_with(
    name: Option<&str>,
    mode: Option<TypeScriptTypesResolutionMode>,
) -> Option<TypeScriptTypesResolutionMode>
    ensures { (before others : List Attribute) → chars_of name.entry ≡ resolution_mode_value before
        → mode ≡ mode_of others → result ≡ mode_of (before ++ others) }
{
    match name {
        Some(_) => mode_of(name),
        None => mode,
    }
}

/// Returns the value of the first `resolution-mode` of a list of attributes that ends with this
/// attribute. `name` is the value before the attribute.
fn name_after<'a>(name: Option<&'a str>, key: &str, value: &'a str) -> Option<&'a str>
    ensures { (before : List Attribute) → chars_of name.entry ≡ resolution_mode_value before
        → chars_of result ≡ resolution_mode_value
        (before ++ record { key = chars key.now; value = chars value.entry.now } ∷ []) }
{
    match name {
        Some(name) => Some(name),
        None => (key == "resolution-mode").then_some(value),
    }
}

/// Reads an attribute, and returns its key and value.
fn attribute(input: &str) -> Option<(&str, (&str, &str))>
    ensures { Reads Anything IsAttribute (chars input.now) (rest_and_attribute result) }
{
    let (rest, key) = key(input)?;
    let rest = token(skip_space(rest), ":")?;
    let (rest, value) = quote(rest)?;
    Some((rest, (key, value)))
}

/// Reads a key, which is quoted or an identifier.
fn key(input: &str) -> Option<(&str, &str)>
    ensures { Reads EndOfIdent IsKey (chars input.now) (rest_and_text result) }
{
    match quote(input) {
        Some((rest, text)) => Some((rest, text)),
        None => ident(input),
    }
}

/// Returns the mode that a text names, or None if it names none.
fn mode_of(name: Option<&str>) -> Option<TypeScriptTypesResolutionMode>
    ensures { result ≡ option_and_then mode_named (chars_of name.entry) }
{
    TypeScriptTypesResolutionMode::from_str(name?)
}
