//! Types that are written as objects, member by member.

ghost use Rattle.std.specs.Prelude.{◌≡◌, All, OnOk, true};
ghost use Rattle.deno_graph_base.specs.TextMap.{IsAscending};
ghost use Rattle.deno_graph_json.specs.Ascending.{has_ascending_keys};
ghost use Rattle.deno_graph_json.specs.JsonWriter.{output, with_member};
ghost use Rattle.deno_graph_json.specs.internal.MapEntries.{ascending-map};
ghost use Rattle.deno_graph_json.specs.Object.{Entry, map_entries, object_of, with_entries};

use crate::json_writer::JsonWriter;
use crate::write::ToJson;
use deno_graph_base::values::TextMap;
use std::alloc::AllocError;

/// A type whose JSON is an object. Each such type has `ToJson`.
pub trait ToObject {
    ghost use Rattle.std.specs.Prelude.{List};

    /// The members: each key with its value, or with none if the member is left out. The keys ascend.
    ghost entries: { Self → List Entry };

    /// What holds of each value that exists at run time.
    ghost is_held: { Self → Type 0 } = { λ _. Unit {0} };

    /// Writes the members, in the order of `entries`. The only error is that an allocation fails.
    fn put_members(&self, out: &mut JsonWriter) -> Result<(), AllocError>
        ensures ok { OnOk result
            (output out.new ≡ with_entries with_member (entries self.now) (output out.old)) }
        ensures held { OnOk result (is_held self.now) };

    ghost ascends: { (x : Self) → is_held x → has_ascending_keys (entries x) ≡ true };
}

impl<T: ToObject> ToJson for T {
    ghost json = { λ x. object_of (T.entries x) };

    ghost is_held = { T.is_held };

    fn write(&self, out: &mut JsonWriter) -> Result<(), AllocError> {
        out.object(self)
    }
}

impl<T: ToJson> ToObject for TextMap<T> {
    ghost entries = { map_entries T.json };

    ghost is_held = { λ entries. IsAscending entries × All (λ e. T.is_held e.1) entries };

    ghost ascends = { λ entries held. ascending-map T.json entries held.0 };

    fn put_members(&self, out: &mut JsonWriter) -> Result<(), AllocError> {
        for (key, value) in self {
            out.put(key, value)?;
        }
        Ok(())
    }
}
