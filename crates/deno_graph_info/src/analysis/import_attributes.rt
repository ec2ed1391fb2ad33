ghost use Rattle.std.specs.Prelude.{◌≡◌, ◌↔◌, IsTrue, codes, option_map, refl};
ghost use Rattle.serde_json.specs.Data.{string};
ghost use Rattle.deno_graph_base.specs.TextMap.{IsAscending};
ghost use Rattle.deno_graph_info.specs.ImportAttributes.{is_none, attribute_at, IsAssetType};
ghost use Rattle.deno_graph_info.specs.Json.ImportAttributes.{json_of_attribute, json_of_attributes, reads_attribute, reads_attributes, attributes_named, known_attributes, known_entries, AreHeldAttributes};
ghost use Rattle.deno_graph_json.specs.ObjectReader.{readable, value_of};
ghost use Rattle.deno_graph_json.specs.Read.Result.{IsReadResult};

use crate::analysis::module_info::ModuleInfo;
use deno_graph_base::values::{Text, TextMap, TryClone};
use deno_graph_json::{
    Element, Expected, FromJson, JsonWriter, ObjectReader, ReadError, ToJson, ToObject, View,
};
use std::alloc::{AllocError, Global};

/// The value of an import attribute.
#[derive(Debug, PartialEq, Eq, Drop)]
pub enum ImportAttribute {
    /// An unknown expression.
    Unknown,
    /// A string.
    Known(Text),
}

impl TryClone for ImportAttribute {
    fn try_clone(&self, alloc: Global) -> Result<ImportAttribute, AllocError> {
        match self {
            ImportAttribute::Unknown => Ok(ImportAttribute::Unknown),
            ImportAttribute::Known(value) => Ok(ImportAttribute::Known(value.try_clone(alloc)?)),
        }
    }
}

impl ToJson for ImportAttribute {
    ghost json = { json_of_attribute };

    fn write(&self, out: &mut JsonWriter) -> Result<(), AllocError> {
        match self {
            ImportAttribute::Unknown => out.null(),
            ImportAttribute::Known(value) => out.string(value.as_str()),
        }
    }
}

impl FromJson<ModuleInfo> for ImportAttribute {
    ghost reads = { reads_attribute };

    #[tactic(auto, unfolding(crate::specs::Json::ImportAttributes::reads_attribute))]
    fn from_json(alloc: Global, value: Element<'_>) -> Result<ImportAttribute, ReadError> {
        match value.view() {
            View::Null => Ok(ImportAttribute::Unknown),
            View::String(text) => Ok(ImportAttribute::Known(Text::from_str(alloc, text)?)),
            _ => Err(ReadError::expected(alloc, Expected::Attribute)),
        }
    }
}

/// The import attributes of a dependency.
#[derive(Debug, PartialEq, Eq, Drop)]
pub enum ImportAttributes {
    /// The dependency has none.
    None,
    /// Some keys are unknown.
    Unknown,
    /// All keys are known. Each has its value.
    Known(TextMap<ImportAttribute>),
}

impl ImportAttributes {
    /// Returns whether the dependency has none.
    pub fn is_none(&self) -> bool
        ensures { result ≡ is_none self.now }
    {
        matches!(self, ImportAttributes::None)
    }

    /// Returns the value of the attribute `key`, or None if the keys or the value are unknown or no
    /// attribute has this key.
    pub fn get(&self, key: &str) -> Option<&str>
        ensures { option_map (λ value. value.now) result ≡ attribute_at self.now key.now }
    {
        match self {
            ImportAttributes::Known(map) => match map.get(key) {
                Some(ImportAttribute::Known(value)) => Some(value.as_str()),
                _ => None,
            },
            _ => None,
        }
    }

    /// Returns whether the attribute `type` is `text`, `bytes` or `css`, so that the module is an asset.
    pub fn has_asset(&self) -> bool
        ensures { IsTrue result ↔ IsAssetType (attribute_at self.now (codes "type")) }
    {
        match self.get("type") {
            Some(value) => matches!(value, "text" | "bytes" | "css"),
            None => false,
        }
    }
}

impl Default for ImportAttributes {
    ghost use Rattle.std.specs.Prelude.{◌≡◌};
    ghost use Rattle.deno_graph_info.specs.declared.analysis.import_attributes.ImportAttributes.TheVariants.{None};

    ghost is_default = { λ attributes. attributes ≡ None };

    fn default() -> ImportAttributes {
        ImportAttributes::None
    }
}

impl TryClone for ImportAttributes {
    fn try_clone(&self, alloc: Global) -> Result<ImportAttributes, AllocError> {
        match self {
            ImportAttributes::None => Ok(ImportAttributes::None),
            ImportAttributes::Unknown => Ok(ImportAttributes::Unknown),
            ImportAttributes::Known(map) => Ok(ImportAttributes::Known(map.try_clone(alloc)?)),
        }
    }
}

impl ToJson for ImportAttributes {
    ghost json = { json_of_attributes };

    ghost is_held = { AreHeldAttributes };

    fn write(&self, out: &mut JsonWriter) -> Result<(), AllocError> {
        match self {
            ImportAttributes::None => out.string("none"),
            ImportAttributes::Unknown => out.string("unknown"),
            ImportAttributes::Known(map) => out.object(&KnownAttributes(map)),
        }
    }
}

/// The object of attributes that are known.
#[derive(Drop)]
struct KnownAttributes<'a>(&'a TextMap<ImportAttribute>);

impl ToObject for KnownAttributes<'_> {
    ghost entries = { λ known. known_entries known.0.now };

    ghost is_held = { λ known. IsAscending known.0.now };

    ghost ascends = { λ _ _. refl };

    fn put_members(&self, out: &mut JsonWriter) -> Result<(), AllocError> {
        out.put("known", self.0)
    }
}

impl FromJson<ModuleInfo> for ImportAttributes {
    ghost reads = { reads_attributes };

    #[tactic(auto, unfolding(crate::specs::Json::ImportAttributes::reads_attributes))]
    fn from_json(alloc: Global, value: Element<'_>) -> Result<ImportAttributes, ReadError> {
        match value.view() {
            View::String(text) => read_name(alloc, text),
            View::Object(members) => read_known(alloc, &ObjectReader::of_members(alloc, members)),
            _ => Err(ReadError::expected(alloc, Expected::Attributes)),
        }
    }
}

/// Reads attributes that are written as a string: `none` or `unknown`.
#[tactic(auto, unfolding(crate::specs::Json::ImportAttributes::attributes_named, crate::specs::Json::ImportAttributes::reads_attributes))]
fn read_name(alloc: Global, name: &str) -> Result<ImportAttributes, ReadError>
    ensures { IsReadResult (string name.now) (attributes_named name.now) result }
{
    match name {
        "none" => Ok(ImportAttributes::None),
        "unknown" => Ok(ImportAttributes::Unknown),
        _ => Err(ReadError::expected(alloc, Expected::Attributes)),
    }
}

/// Reads the attributes of an object with the one member `known`.
#[tactic(auto, unfolding(crate::specs::Json::ImportAttributes::known_attributes, crate::specs::Json::ImportAttributes::reads_attributes))]
fn read_known(
    alloc: Global,
    object: &ObjectReader<ModuleInfo>,
) -> Result<ImportAttributes, ReadError>
    ensures { IsReadResult (value_of object.now) (known_attributes (readable object.now)) result }
{
    if object.has_one_name() {
        let known = object.read("known")?;
        Ok(ImportAttributes::Known(known))
    } else {
        Err(ReadError::expected(alloc, Expected::Attributes))
    }
}
