//! Documents of `convert`: the stored information of one module, of version 1.

ghost use Rattle.std.specs.Prelude.{MatchResult};
ghost use Rattle.std.specs.String.{string_bytes};
ghost use Rattle.deno_graph_json.specs.Data.{data_of};
ghost use Rattle.modinfo.specs.Answer.{IsConvertedText, IsNoConversion};
ghost use Rattle.modinfo.specs.internal.Convert.{IsConvertedValue, IsNoConvertedValue};

use crate::fault::Fault;
use deno_graph_info::analysis::converted_text;
use deno_graph_json::{Element, Tape};
use json::Scratch;
use std::alloc::Global;

/// Reads and converts a document. Returns compact JSON. The error is `Json` if the text isn't JSON, a
/// fault of its value, or `OutOfMemory` if an allocation fails.
pub fn convert_text(alloc: Global, text: &str) -> Result<String, Fault>
    ensures { MatchResult result (λ converted. IsConvertedText text.now (string_bytes converted))
        (IsNoConversion text.now) }
{
    let mut scratch = Scratch::new(alloc);
    let tape = Tape::read(alloc, text, &mut scratch)?;
    convert_value(alloc, tape.root())
}

/// Converts the value of a document.
fn convert_value(alloc: Global, value: Element<'_>) -> Result<String, Fault>
    ensures { MatchResult result (λ converted. IsConvertedValue (data_of value.entry) (string_bytes converted))
        (IsNoConvertedValue (data_of value.entry)) }
{
    Ok(converted_text(alloc, value)?)
}
