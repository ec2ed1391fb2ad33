//! Writing JSON, as text or as a value.
#![tactic(auto, unfolding(crate::specs::JsonWriter::with_value, crate::specs::JsonWriter::with_member))]

ghost use Rattle.std.specs.Prelude.{◌≡◌, false, All, IfSome, OnOk, option_map};
ghost use Rattle.json.specs.Print.{IsPrintable};
ghost use Rattle.json.specs.Reads.{token_of};
ghost use Rattle.serde_json.specs.Data.{boolean, no_members, null, number, string, unsigned};
ghost use Rattle.serde_json.specs.View.{view};
ghost use Rattle.deno_graph_json.specs.JsonWriter.{object_part, output, text_part, value, value_part, with_member, with_token, with_value};
ghost use Rattle.deno_graph_json.specs.Object.{array_of, if_any, if_true, object_of, unless, with_present};
ghost use Rattle.deno_graph_json.specs.Text.{text_in};

use crate::built_value::BuiltValue;
use crate::object::ToObject;
use crate::write::ToJson;
use deno_graph_base::values::Items;
use json::{Token, Writer};
use serde_json::Value;
use std::alloc::{AllocError, Global};

/// Writes JSON, as text or as a value.
#[derive(Drop)]
pub enum JsonWriter {
    Text(Writer),
    Value(BuiltValue),
}

impl JsonWriter {
    /// Begins a value: null, and an object with no members. Allocates nothing.
    pub fn value(alloc: Global) -> JsonWriter
        ensures { output result ≡ value null no_members }
    {
        JsonWriter::Value(BuiltValue::new(alloc))
    }

    /// Returns the text, or an empty one for a value. Allocates nothing.
    pub fn into_writer(self) -> Writer
        ensures { text_in result ≡ text_part (output self) }
    {
        match self {
            JsonWriter::Text(out) => out,
            JsonWriter::Value(out) => Writer::new(Vec::new(out.alloc)),
        }
    }

    /// Returns the value, or null for a text. Allocates nothing.
    pub fn into_value(self) -> Value
        ensures { view result ≡ value_part (output self) }
    {
        match self {
            JsonWriter::Text(_) => Value::Null,
            JsonWriter::Value(out) => out.last,
        }
    }

    /// Returns the object of the members, or null for a text. Allocates nothing.
    pub(crate) fn into_object(self) -> Value
        ensures { view result ≡ object_part (output self) }
    {
        match self {
            JsonWriter::Text(_) => Value::Null,
            JsonWriter::Value(out) => Value::Object(out.members),
        }
    }

    /// Writes null. The only error is that an allocation fails, as in all functions below.
    #[inline(always)]
    pub fn null(&mut self) -> Result<(), AllocError>
        ensures { OnOk result (output self.new ≡ with_value null (output self.old)) }
    {
        match self {
            JsonWriter::Text(out) => out.null(),
            JsonWriter::Value(out) => out.set(Value::Null),
        }
    }

    /// Writes a boolean.
    #[inline(always)]
    pub fn boolean(&mut self, flag: bool) -> Result<(), AllocError>
        ensures { OnOk result (output self.new ≡ with_value (boolean flag) (output self.old)) }
    {
        match self {
            JsonWriter::Text(out) => out.boolean(flag),
            JsonWriter::Value(out) => out.set(Value::Bool(flag)),
        }
    }

    /// Writes a whole number.
    #[inline(always)]
    pub fn whole(&mut self, n: usize) -> Result<(), AllocError>
        ensures { OnOk result
            (output self.new ≡ with_value (number (unsigned n)) (output self.old)) }
    {
        match self {
            JsonWriter::Text(out) => out.u64(n as u64),
            JsonWriter::Value(out) => out.set(Value::from(n)),
        }
    }

    /// Writes a string.
    #[inline(always)]
    pub fn string(&mut self, text: &str) -> Result<(), AllocError>
        ensures { OnOk result (output self.new ≡ with_value (string text.now) (output self.old)) }
    {
        match self {
            JsonWriter::Text(out) => out.string(text),
            JsonWriter::Value(out) => out.string(text),
        }
    }

    /// Writes the items as an array.
    pub fn items<T: ToJson>(&mut self, items: &[T]) -> Result<(), AllocError>
        ensures ok { OnOk result
            (output self.new ≡ with_value (array_of T.json items.now) (output self.old)) }
        ensures held { OnOk result (All T.is_held items.now) }
    {
        match self {
            JsonWriter::Text(_) => {
                self.token(Token::BeginArray)?;
                for item in items {
                    item.write(self)?;
                }
                self.token(Token::EndArray)
            }
            JsonWriter::Value(out) => out.items(items),
        }
    }

    /// Writes the members of `value` as an object.
    #[inline(always)]
    pub fn object<T: ToObject>(&mut self, value: &T) -> Result<(), AllocError>
        ensures ok { OnOk result
            (output self.new ≡ with_value (object_of (T.entries value.now)) (output self.old)) }
        ensures held { OnOk result (T.is_held value.now) }
    {
        match self {
            JsonWriter::Text(_) => {
                self.token(Token::BeginObject)?;
                value.put_members(self)?;
                self.token(Token::EndObject)
            }
            JsonWriter::Value(out) => out.object(value),
        }
    }

    /// Writes a token of a text that a value doesn't have.
    #[inline(always)]
    fn token(&mut self, token: Token<'_>) -> Result<(), AllocError>
        requires { IsPrintable (token_of token) }
        ensures { OnOk result (output self.new ≡ with_token (token_of token.entry) (output self.old)) }
    {
        match self {
            JsonWriter::Text(out) => out.token(token),
            JsonWriter::Value(_) => Ok(()),
        }
    }

    /// Writes `value` as the member `key`.
    #[inline(always)]
    pub fn put<T: ToJson>(&mut self, key: &str, value: &T) -> Result<(), AllocError>
        ensures ok { OnOk result
            (output self.new ≡ with_member key.now (T.json value.now) (output self.old)) }
        ensures held { OnOk result (T.is_held value.now) }
    {
        match self {
            JsonWriter::Text(out) => {
                out.key(key)?;
                value.write(self)
            }
            JsonWriter::Value(out) => out.put(key, value),
        }
    }

    /// Writes a string as the member `key`.
    #[inline(always)]
    pub fn put_str(&mut self, key: &str, text: &str) -> Result<(), AllocError>
        ensures { OnOk result
            (output self.new ≡ with_member key.now (string text.now) (output self.old)) }
    {
        match self {
            JsonWriter::Text(out) => {
                out.key(key)?;
                out.string(text)
            }
            JsonWriter::Value(out) => out.put_str(key, text),
        }
    }

    /// Writes the member `key` if there is a value.
    #[inline(always)]
    pub fn put_some<T: ToJson>(&mut self, key: &str, value: &Option<T>) -> Result<(), AllocError>
        ensures ok { OnOk result (output self.new
            ≡ with_present with_member key.now (option_map T.json value.now) (output self.old)) }
        ensures held { OnOk result (IfSome value.now T.is_held) }
    {
        match value {
            Some(present) => self.put(key, present),
            None => Ok(()),
        }
    }

    /// Writes `value` as the member `key`, unless `is_default` holds.
    #[inline(always)]
    pub fn put_unless<T: ToJson>(
        &mut self,
        is_default: bool,
        key: &str,
        value: &T,
    ) -> Result<(), AllocError>
        ensures ok { OnOk result (output self.new ≡ with_present with_member key.now
            (unless is_default (T.json value.now)) (output self.old)) }
        ensures held { OnOk result (is_default ≡ false → T.is_held value.now) }
    {
        if is_default {
            Ok(())
        } else {
            self.put(key, value)
        }
    }

    /// Writes `true` as the member `key` if the flag is set.
    #[inline(always)]
    pub fn put_flag(&mut self, key: &str, flag: bool) -> Result<(), AllocError>
        ensures ok { OnOk result (output self.new
            ≡ with_present with_member key.now (if_true flag) (output self.old)) }
    {
        self.put_unless(!flag, key, &flag)
    }

    /// Writes the items as the member `key`, an array, if there are any.
    #[inline(always)]
    pub fn put_list<T: ToJson>(&mut self, key: &str, items: &Items<T>) -> Result<(), AllocError>
        ensures ok { OnOk result (output self.new ≡ with_present with_member key.now
            (option_map (array_of T.json) (if_any items.now)) (output self.old)) }
        ensures held { OnOk result (All T.is_held items.now) }
    {
        self.put_unless(items.is_empty(), key, items)
    }
}
