//! Building a JSON value.
#![tactic(auto, unfolding(crate::specs::JsonWriter::with_value, crate::specs::JsonWriter::with_member))]

ghost use Rattle.std.specs.Prelude.{◌≡◌, All, IfOk, OnOk, map};
ghost use Rattle.serde_json.specs.Data.{no_members, null, string};
ghost use Rattle.serde_json.specs.View.{view};
ghost use Rattle.deno_graph_json.specs.JsonWriter.{built, value, with_member, with_value};
ghost use Rattle.deno_graph_json.specs.Object.{array_of, object_of};

use crate::json_writer::JsonWriter;
use crate::object::ToObject;
use crate::write::{ToJson, to_value};
use serde_json::{Map, Value, put};
use std::alloc::{AllocError, Global};

/// The last value that was written, beside the members of an object. The only error of its functions is that
/// an allocation fails. They are cold, so that `JsonWriter`, which mostly writes text, stays short.
#[derive(Drop)]
pub struct BuiltValue {
    pub(crate) alloc: Global,
    pub(crate) last: Value,
    pub(crate) members: Map<String, Value>,
}

impl BuiltValue {
    /// Begins a value: null, and an object with no members. Allocates nothing.
    pub fn new(alloc: Global) -> BuiltValue
        ensures { built result ≡ value null no_members }
    {
        BuiltValue {
            alloc,
            last: Value::Null,
            members: Map::new(alloc),
        }
    }

    /// Puts a value in the place of the last one. Returns no error.
    #[cold]
    pub(crate) fn set(&mut self, json: Value) -> Result<(), AllocError>
        ensures { OnOk result (built self.new ≡ with_value (view json) (built self.old)) }
    {
        self.last = json;
        Ok(())
    }

    /// Writes a string.
    #[cold]
    pub(crate) fn string(&mut self, text: &str) -> Result<(), AllocError>
        ensures { OnOk result (built self.new ≡ with_value (string text.now) (built self.old)) }
    {
        self.last = Value::try_from_str(self.alloc, text)?;
        Ok(())
    }

    /// Writes the items as an array.
    #[cold]
    pub(crate) fn items<T: ToJson>(&mut self, items: &[T]) -> Result<(), AllocError>
        ensures ok { OnOk result
            (built self.new ≡ with_value (array_of T.json items.now) (built self.old)) }
        ensures held { OnOk result (All T.is_held items.now) }
    {
        let mut values = Vec::with_capacity(self.alloc, items.len())?;
        for item in items {
            values.push(to_value(self.alloc, item)?)?;
        }
        self.set(Value::Array(values))
    }

    /// Writes the members of `value` as an object.
    #[cold]
    pub(crate) fn object<T: ToObject>(&mut self, value: &T) -> Result<(), AllocError>
        ensures ok { OnOk result
            (built self.new ≡ with_value (object_of (T.entries value.now)) (built self.old)) }
        ensures held { OnOk result (T.is_held value.now) }
    {
        let mut object = JsonWriter::value(self.alloc);
        value.put_members(&mut object)?;
        self.set(object.into_object())
    }

    /// Writes `value` as the member `key`.
    #[cold]
    pub(crate) fn put<T: ToJson>(&mut self, key: &str, value: &T) -> Result<(), AllocError>
        ensures ok { OnOk result
            (built self.new ≡ with_member key.now (T.json value.now) (built self.old)) }
        ensures held { OnOk result (T.is_held value.now) }
    {
        let json = to_value(self.alloc, value)?;
        put(&mut self.members, self.alloc, key, json)
    }

    /// Writes a string as the member `key`.
    #[cold]
    pub(crate) fn put_str(&mut self, key: &str, text: &str) -> Result<(), AllocError>
        ensures { OnOk result
            (built self.new ≡ with_member key.now (string text.now) (built self.old)) }
    {
        let json = Value::try_from_str(self.alloc, text)?;
        put(&mut self.members, self.alloc, key, json)
    }
}
