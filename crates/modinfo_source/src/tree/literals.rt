//! The values of literals, as their slices of the text spell them.

ghost use Rattle.std.specs.Prelude.{◌≡◌, IfOk, IfSome, List};
ghost use Rattle.std.specs.List.{Contains};
ghost use Rattle.modinfo_imports.specs.Nodes.{part_claim};
ghost use Rattle.modinfo_pieces.specs.declared.piece.Piece.{Piece};
ghost use Rattle.modinfo_source.specs.Spelled.{CooksAt, SpellsAt};

use crate::slice::slice_at;
use deno_graph_base::text::{JsString, SourceRange};
use deno_graph_base::values::Text;
use deno_graph_source::tree::StrLit;
use modinfo_lexer::syntax_error::ReadError;
use modinfo_literals::{cooked_value, string_value};
use std::alloc::Global;

/// Returns the string literal at a range.
pub(crate) fn literal_at(alloc: Global, text: &str, range: SourceRange) -> Result<StrLit, ReadError>
    ensures range { IfOk result (λ literal. literal.range ≡ range) }
    ensures value { IfOk result (λ literal. SpellsAt text.now range literal.value) }
{
    Ok(StrLit::new(spelled_value(alloc, text, range)?, range))
}

/// Returns the value of the string literal at a range. If there is none, returns a syntax error.
pub(crate) fn spelled_value(
    alloc: Global,
    text: &str,
    range: SourceRange,
) -> Result<JsString, ReadError>
    ensures { IfOk result (SpellsAt text.now range) }
{
    let Some(slice) = slice_at(text, range) else {
        return Err(no_string(range));
    };
    match string_value(alloc, slice)? {
        Some(value) => Ok(value),
        None => Err(no_string(range)),
    }
}

/// Returns the error of a string that has no value.
fn no_string(range: SourceRange) -> ReadError {
    ReadError::syntax("the string has an escape that isn't one", range.start)
}

/// Returns the cooked value of the part of a template at a range, if there is one.
pub(crate) fn cooked_part(
    alloc: Global,
    text: &str,
    range: SourceRange,
) -> Result<Option<JsString>, ReadError>
    ensures { (pieces : List Piece) → Contains pieces (part_claim text.now range)
        → IfOk result (λ found. IfSome found (CooksAt text.now pieces range)) }
{
    match slice_at(text, range) {
        Some(slice) => Ok(cooked_value(alloc, slice)?),
        None => Ok(None),
    }
}

/// Returns the name at a range, in which escapes stand for characters.
pub(crate) fn name_at(alloc: Global, text: &str, range: SourceRange) -> Result<Text, ReadError> {
    let slice = slice_at(text, range).unwrap_or("");
    if slice.contains('\\') {
        return escaped_name(alloc, slice);
    }
    Ok(Text::from_str(alloc, slice)?)
}

/// Returns the name that a slice with escapes spells, read as a string.
fn escaped_name(alloc: Global, slice: &str) -> Result<Text, ReadError> {
    let quoted = format!(in alloc; "'{slice}'")?;
    match string_value(alloc, quoted.as_str())? {
        Some(value) => Ok(Text::from_str(alloc, value.to_str_lossy())?),
        None => Ok(Text::from_str(alloc, slice)?),
    }
}
