#![tactic(auto, unfolding(crate::proofs::Unfolded::node_parts))]

ghost use Rattle.std.specs.Prelude.{◌≡◌, ◌↔◌, ◌⊎◌, IfOk, OnOk, IsTrue, Some, false, codes, is_some, option_map};
ghost use Rattle.std.specs.Option.{option_copied};
ghost use Rattle.deno_graph_source.specs.Node.{kind_of, children_of, is_object};
ghost use Rattle.deno_graph_dep.specs.Attributes.{static_key, static_value, text_of_kind, has_static_keys, declared, attribute_of, AreDeclarationAttributes, AreObjectAttributes, AreClauseAttributes, AreCallAttributes};
ghost use Rattle.deno_graph_dep.specs.internal.AttributeSteps.{known_object, Puts};

use deno_graph_base::values::{Text, TextMap};
use deno_graph_info::analysis::{ImportAttribute, ImportAttributes};
use deno_graph_source::tree::{Arg, Kind, Node, PropKey};
use std::alloc::{AllocError, Global};

/// Returns the attributes of an import or export declaration. `clause` is the object literal after
/// `with`.
///
/// Returns `None` without a clause. Otherwise `Known` holds each static key with a static value;
/// other properties are skipped, and of two properties with one key the later counts. Fails
/// only if an allocation fails.
pub fn parse_import_attributes(
    alloc: Global,
    clause: Option<&Node>,
) -> Result<ImportAttributes, AllocError>
    ensures { IfOk result (AreDeclarationAttributes (option_copied clause.entry)) }
{
    let Some(object) = clause else {
        return Ok(ImportAttributes::None);
    };
    let mut attributes = TextMap::new(alloc);
    for property in object.children.as_slice() {
        if let Some((key, value)) = static_entry(property) {
            put_attribute(alloc, &mut attributes, key, Some(value))?;
        }
    }
    Ok(ImportAttributes::Known(attributes))
}

/// Returns the attributes of a dynamic import. `argument` is its second argument: an object literal
/// with a clause `with`, or `assert` as the clause was once called. An `assert` after a `with` is
/// no clause.
///
/// Returns `None` without a second argument, and without a clause. Returns `Unknown` where the
/// argument is spread, is no object literal, or has a property without a static key, and where the
/// value of a clause is no object literal or has a property without a static key. Otherwise returns
/// the attributes of the last clause, by `parse_import_attributes_from_object_lit`. Fails only if
/// an allocation fails.
pub fn parse_dynamic_import_attributes(
    alloc: Global,
    argument: Option<(&Arg, &Node)>,
) -> Result<ImportAttributes, AllocError>
    ensures { IfOk result (AreCallAttributes
        (option_map (λ second. (second.0.now, second.1.now)) argument.entry)) }
{
    let Some((argument, node)) = argument else {
        return Ok(ImportAttributes::None);
    };
    if argument.spread || !node.kind.is_object() || !has_static_keys(node) {
        return Ok(ImportAttributes::Unknown);
    }
    last_clause_attributes(alloc, node.children.as_slice())
}

/// Returns the attributes of an object literal, such as the one in an import type.
///
/// Returns `Unknown` where a property has no static key. Otherwise `Known` holds each key, with a
/// `Known` value where the value is static and an `Unknown` one where not; of two properties with
/// one key the later counts. Fails only if an allocation fails.
pub fn parse_import_attributes_from_object_lit(
    alloc: Global,
    object: &Node,
) -> Result<ImportAttributes, AllocError>
    ensures { IfOk result (AreObjectAttributes object.now) }
{
    let mut attributes = TextMap::new(alloc);
    for property in object.children.as_slice() {
        let Some(key) = static_key(property) else {
            return Ok(ImportAttributes::Unknown);
        };
        put_attribute(alloc, &mut attributes, key, static_value(property))?;
    }
    Ok(ImportAttributes::Known(attributes))
}

/// Returns the attributes of the last clause among properties with static keys, or `Unknown` where
/// the value of a clause is unknown.
fn last_clause_attributes(
    alloc: Global,
    properties: &[Node],
) -> Result<ImportAttributes, AllocError>
    ensures { IfOk result (AreClauseAttributes properties.now) }
{
    let mut last = None;
    let mut after_with = false;
    for property in properties {
        if is_clause(property, after_with) {
            let Some(object) = known_object(property) else {
                return Ok(ImportAttributes::Unknown);
            };
            last = Some(object);
        }
        after_with |= has_key(property, "with");
    }
    match last {
        Some(object) => parse_import_attributes_from_object_lit(alloc, object),
        None => Ok(ImportAttributes::None),
    }
}

/// Returns whether a property is a clause with attributes. An `assert` after a `with` is none.
fn is_clause(property: &Node, after_with: bool) -> bool
    ensures { IsTrue result ↔ ((static_key property.now ≡ Some (codes "with"))
        ⊎ ((static_key property.now ≡ Some (codes "assert")) × (after_with ≡ false))) }
{
    has_key(property, "with") || (!after_with && has_key(property, "assert"))
}

/// Returns the object literal that is the value of a property, if each property of the literal has
/// a static key.
fn known_object(property: &Node) -> Option<&Node>
    ensures { option_copied result ≡ known_object property.now }
{
    let value = property.children.last()?;
    if value.kind.is_object() && has_static_keys(value) {
        Some(value)
    } else {
        None
    }
}

/// Puts what is known of a value at `key`, and drops what was there.
fn put_attribute(
    alloc: Global,
    attributes: &mut TextMap<ImportAttribute>,
    key: &str,
    value: Option<&str>,
) -> Result<(), AllocError>
    ensures { OnOk result (Puts attributes.old attributes.new
        key.now (attribute_of (option_copied value.entry))) }
{
    let attribute = match value {
        Some(value) => ImportAttribute::Known(Text::from_str(alloc, value)?),
        None => ImportAttribute::Unknown,
    };
    drop(attributes.insert(Text::from_str(alloc, key)?, attribute)?);
    Ok(())
}

/// Returns whether each property of an object literal has a static key.
fn has_static_keys(object: &Node) -> bool
    ensures { result ≡ has_static_keys object.now }
{
    object.children.as_slice().iter().all(has_static_key)
}

/// Returns whether a property has a static key.
fn has_static_key(property: &Node) -> bool
    ensures { result ≡ is_some (static_key property.now) }
{
    static_key(property).is_some()
}

/// Returns whether a property has this static key.
fn has_key(property: &Node, key: &str) -> bool
    ensures { IsTrue result ↔ (static_key property.now ≡ Some key.now) }
{
    match static_key(property) {
        Some(name) => name == key,
        None => false,
    }
}

/// Returns the static key and the static value of a property that has both.
fn static_entry(property: &Node) -> Option<(&str, &str)>
    ensures { option_map (λ entry. (entry.0.now, ImportAttribute.Known entry.1.now)) result
        ≡ declared property.now }
{
    Some((static_key(property)?, static_value(property)?))
}

/// Returns the text of a static key: an identifier, or a string without lone surrogates.
fn static_key(property: &Node) -> Option<&str>
    ensures { option_copied result ≡ static_key property.now }
{
    match &property.kind {
        Kind::KeyValue(PropKey::Ident(name)) => Some(name.as_str()),
        Kind::KeyValue(PropKey::Str(name)) => name.as_str(),
        _ => None,
    }
}

/// Returns the text of a static value: a string literal without lone surrogates.
fn static_value(property: &Node) -> Option<&str>
    ensures { option_copied result ≡ static_value property.now }
{
    literal_text(property.children.last()?)
}

/// Returns the text of a string literal without lone surrogates.
fn literal_text(node: &Node) -> Option<&str>
    ensures { option_copied result ≡ text_of_kind (kind_of node.now) }
{
    match &node.kind {
        Kind::Str(value) => value.as_str(),
        _ => None,
    }
}
