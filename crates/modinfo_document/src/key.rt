//! Reading keys of properties.

ghost use Rattle.deno_graph_json.specs.ObjectReader.{readable, value_of};
ghost use Rattle.deno_graph_json.specs.Read.Result.{IsReadResult};
ghost use Rattle.modinfo_document.specs.KindParts.{reads_key, reads_static_key};

use crate::document::Document;
use deno_graph_json::{Element, Expected, FromJson, ObjectReader, ReadError, View};
use deno_graph_source::tree::PropKey;
use std::alloc::Global;

/// Reads the key of a property: `{"str":STRING}`, `{"ident":TEXT}` or `"other"`.
impl FromJson<Document> for PropKey {
    ghost reads = { reads_key };

    #[tactic(auto, unfolding(crate::specs::KindParts::reads_key))]
    fn from_json(alloc: Global, value: Element<'_>) -> Result<PropKey, ReadError> {
        match value.view() {
            View::String("other") => Ok(PropKey::Other),
            View::Object(members) => read_static_key(
                alloc,
                &ObjectReader::of_members(alloc, members),
            ),
            _ => Err(ReadError::expected(alloc, Expected::Key)),
        }
    }
}

/// Reads a key that is known: `{"str":STRING}` or `{"ident":TEXT}`.
#[tactic(auto, using(deno_graph_json::proofs::Reading::reading), unfolding(crate::specs::KindParts::reads_static_key, deno_graph_json::specs::Read::Partial::member_at))]
fn read_static_key(alloc: Global, object: &ObjectReader<Document>) -> Result<PropKey, ReadError>
    ensures { IsReadResult (value_of object.now) (reads_static_key (readable object.now)) result }
{
    match (object.get("str"), object.get("ident")) {
        (text @ Some(_), None) => {
            let text = object.read_found("str", text)?;
            Ok(PropKey::Str(text))
        }
        (None, name @ Some(_)) => {
            let name = object.read_found("ident", name)?;
            Ok(PropKey::Ident(name))
        }
        (None, None) | (Some(_), Some(_)) => Err(ReadError::expected(alloc, Expected::Key)),
    }
}
