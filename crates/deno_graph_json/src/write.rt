//! Writing values to JSON, as values and as text.

ghost use Rattle.std.specs.Prelude.{◌≡◌, ◌<◌, ◌^◌, [], All, IfOk, OnOk, string_bytes};
ghost use Rattle.json.specs.Print.{print};
ghost use Rattle.serde_json.specs.Data.{boolean, number, string, unsigned};
ghost use Rattle.serde_json.specs.View.{view};
ghost use Rattle.serde_json.specs.Written.{compact_text};
ghost use Rattle.deno_graph_json.specs.JsonWriter.{output, with_value};
ghost use Rattle.deno_graph_json.specs.Object.{array_of};
ghost use Rattle.deno_graph_json.specs.Text.{text_in, text_tokens, with_tokens};

use crate::json_writer::JsonWriter;
use deno_graph_base::values::{Items, Text};
use json::Writer;
use serde_json::Value;
use std::alloc::{AllocError, Global};
use std::mem::replace;

/// A type that can be written as JSON.
pub trait ToJson {
    ghost use Rattle.serde_json.specs.Data.{Data};

    /// Its JSON.
    ghost json: { Self → Data };

    /// What holds of each value that exists at run time: a number fits its type, and the keys of a
    /// map ascend.
    ghost is_held: { Self → Type 0 } = { λ _. Unit {0} };

    /// Writes the JSON. The only error is that an allocation fails.
    fn write(&self, out: &mut JsonWriter) -> Result<(), AllocError>
        ensures ok { OnOk result (output out.new ≡ with_value (json self.now) (output out.old)) }
        ensures held { OnOk result (is_held self.now) };
}

/// Returns the JSON of `value` as a `Value`. The only error is that an allocation fails.
#[tactic(auto, unfolding(crate::specs::JsonWriter::with_value))]
pub fn to_value<T: ToJson>(alloc: Global, value: &T) -> Result<Value, AllocError>
    ensures form { IfOk result (λ json. view json ≡ T.json value.now) }
    ensures held { OnOk result (T.is_held value.now) }
{
    let mut out = JsonWriter::value(alloc);
    value.write(&mut out)?;
    Ok(out.into_value())
}

/// Returns the JSON of `value` as compact text, with the keys of each object ascending. The only
/// error is that an allocation fails.
pub fn to_text<T: ToJson>(alloc: Global, value: &T) -> Result<String, AllocError>
    ensures { IfOk result (λ text. string_bytes text ≡ compact_text (T.json value.now)) }
{
    let mut out = new_writer(alloc)?;
    append(alloc, &mut out, value)?;
    Ok(into_text(out))
}

/// Appends the JSON of `value` to a text. The only error is that an allocation fails: the text is then
/// empty.
#[tactic(auto, unfolding(crate::specs::JsonWriter::with_value))]
pub fn append<T: ToJson>(alloc: Global, out: &mut Writer, value: &T) -> Result<(), AllocError>
    ensures ok { OnOk result (text_in out.new
        ≡ with_tokens (text_tokens (T.json value.now)) (text_in out.old)) }
    ensures held { OnOk result (T.is_held value.now) }
{
    let mut json = JsonWriter::Text(replace(out, Writer::new(Vec::new(alloc))));
    value.write(&mut json)?;
    *out = json.into_writer();
    Ok(())
}

/// Returns a writer with an empty buffer. The only error is that an allocation fails.
pub fn new_writer(alloc: Global) -> Result<Writer, AllocError>
    ensures { IfOk result (λ out. text_in out ≡ ([], [])) }
{
    Ok(Writer::new(Vec::with_capacity(alloc, 128)?))
}

/// Returns the text that was written to an empty buffer. Allocates nothing.
pub fn into_text(out: Writer) -> String
    requires { out.before ≡ [] }
    ensures { string_bytes result ≡ print out.tokens }
{
    unsafe { String::from_utf8_unchecked(out.into_inner()) }
}

impl ToJson for bool {
    ghost json = { boolean };

    fn write(&self, out: &mut JsonWriter) -> Result<(), AllocError> {
        out.boolean(*self)
    }
}

impl ToJson for usize {
    ghost json = { λ n. number (unsigned n) };

    ghost is_held = { λ n. n < 2 ^ 64 };

    fn write(&self, out: &mut JsonWriter) -> Result<(), AllocError> {
        out.whole(*self)
    }
}

impl ToJson for Text {
    ghost json = { string };

    fn write(&self, out: &mut JsonWriter) -> Result<(), AllocError> {
        out.string(self.as_str())
    }
}

impl<T: ToJson> ToJson for Items<T> {
    ghost json = { array_of T.json };

    ghost is_held = { All T.is_held };

    fn write(&self, out: &mut JsonWriter) -> Result<(), AllocError> {
        out.items(self.as_slice())
    }
}
