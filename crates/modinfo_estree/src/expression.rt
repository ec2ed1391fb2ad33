//! Strings, templates, operators, names and objects.

ghost use Rattle.std.specs.Prelude.{◌≡◌, codes, IfOk, Option, Some};
ghost use Rattle.deno_graph_json.specs.Data.{data_of};
ghost use Rattle.serde_json.specs.Data.{Data};
ghost use Rattle.deno_graph_json.specs.ObjectReader.{readable, value_of};
ghost use Rattle.deno_graph_json.specs.Read.Result.{IsReadResult};
ghost use Rattle.deno_graph_json.specs.Read.Partial.{member_at, reads_array};
ghost use Rattle.modinfo_document.specs.Literal.{reads_string};
ghost use Rattle.modinfo_estree.specs.Kind as spec;
ghost use Rattle.modinfo_estree.specs.Parts.{parts_of};

use crate::child::{Child, nodes_in_parentheses, nodes_of, split};
use crate::literal::if_spelled;
use crate::member::{has_text, text_at};
use crate::reading::Reading;
use crate::role::Group;
use crate::source::{Estree, NodeMembers};
use deno_graph_json::{Element, FromJson, ObjectReader, ReadError};
use deno_graph_source::text::JsString;
use deno_graph_source::tree::{BinaryOp, Kind, Node};
use deno_graph_source::values::{Items, Text};
use modinfo_document::read_string;
use std::alloc::{AllocError, Global};

impl<'a, 't, 'v> Reading<'a, 't, 'v> {
    /// Reads a literal, an `Other` if it is no string. A BigInt of Babel has its digits as `value`.
    #[tactic(auto, using(deno_graph_json::proofs::Reading::reading), unfolding(crate::specs::Kind::reads_string_node))]
    pub fn literal(&self, children: Vec<Child>) -> Result<Node, ReadError>
        ensures { IsReadResult (value_of self.now.members)
            (spec.reads_string_node (parts_of self.now) children.items) result }
    {
        match self.string_value()? {
            Some(text) => self.string(text, children),
            None => Ok(self.whole(Kind::Other, children)?),
        }
    }

    /// Reads a string literal with the value that was read from its members. If a rule may read the value,
    /// the text has to spell it.
    #[tactic(auto, using(deno_graph_json::proofs::Reading::reading))]
    fn string(&self, text: JsString, children: Vec<Child>) -> Result<Node, ReadError>
        requires { member_at reads_string (codes "value") (readable self.now.members) ≡ Some text }
        ensures { IsReadResult (value_of self.now.members)
            (spec.reads_spelled (parts_of self.now) children.items text) result }
    {
        if !self.role.is_read() {
            return Ok(self.whole(Kind::Str(text), children)?);
        }
        let offsets = &self.source.offsets;
        let spelled = if_spelled(self.alloc, offsets, self.range, &self.members, text)?;
        Ok(self.whole(Kind::Str(spelled), children)?)
    }

    /// Returns the value of a literal that is a string.
    fn string_value(&self) -> Result<Option<JsString>, AllocError>
        ensures { IfOk result (λ value. value ≡ spec.string_value (readable self.now.members)) }
    {
        match text_at(&self.members, "bigint") {
            Some(_) => Ok(None),
            None => found(self.members.read("value")),
        }
    }

    /// Reads a template, an `Other` if an escape in it is no text.
    #[tactic(auto, unfolding(crate::specs::Kind::template))]
    pub fn template(&self, children: Vec<Child>) -> Result<Node, AllocError>
        ensures { IfOk result (λ node. node ≡ spec.template (parts_of self.now) children.items) }
    {
        match self.quasis()? {
            Some(quasis) => {
                let (expressions, _) = split(self.alloc, children, Group::Expressions)?;
                let nodes = nodes_of(self.alloc, expressions)?;
                Ok(self.node(Kind::Template(quasis), nodes))
            }
            None => self.whole(Kind::Other, children),
        }
    }

    /// Reads a binary expression.
    #[tactic(auto, unfolding(crate::specs::Kind::binary))]
    pub fn binary(&self, children: Vec<Child>) -> Result<Node, AllocError>
        ensures { IfOk result (λ node. node ≡ spec.binary (parts_of self.now) children.items) }
    {
        let operator = if has_text(&self.members, "operator", "+") {
            BinaryOp::Add
        } else {
            BinaryOp::Other
        };
        let (operands, _) = split(self.alloc, children, Group::Operands)?;
        let nodes = nodes_in_parentheses(self.alloc, self.range, operands)?;
        Ok(self.node(Kind::Binary(operator), nodes))
    }

    /// Reads an identifier.
    #[tactic(auto, unfolding(crate::specs::Kind::identifier))]
    pub fn identifier(&self, children: Vec<Child>) -> Result<Node, AllocError>
        ensures { IfOk result (λ node. node ≡ spec.identifier (parts_of self.now) children.items) }
    {
        match text_at(&self.members, "name") {
            Some(name) => self.whole(Kind::Ident(Text::from_str(self.alloc, name)?), children),
            None => self.whole(Kind::Other, children),
        }
    }

    /// Reads an object literal.
    #[tactic(auto, unfolding(crate::specs::Kind::object_literal))]
    pub fn object(&self, children: Vec<Child>) -> Result<Node, AllocError>
        ensures { IfOk result (λ node. node ≡ spec.object_literal (parts_of self.now) children.items) }
    {
        let (properties, _) = split(self.alloc, children, Group::Properties)?;
        let nodes = nodes_of(self.alloc, properties)?;
        Ok(self.node(Kind::Object, nodes))
    }

    /// Reads the texts of a template, None if an escape in one is no text.
    #[tactic(auto, unfolding(deno_graph_json::specs::Read::Partial::member_at))]
    fn quasis(&self) -> Result<Option<Items<JsString>>, AllocError>
        ensures { IfOk result (λ quasis. quasis ≡ spec.quasis (readable self.now.members)) }
    {
        match self.members.get("quasis") {
            Some(value) => found(read_quasis(self.alloc, value)),
            None => Ok(None),
        }
    }
}

/// Returns the value that was read, or `None` if the JSON has another form.
pub fn found<T: Drop>(read: Result<T, ReadError>) -> Result<Option<T>, AllocError>
    ensures { (value : Data) → (wanted : Option T) → IsReadResult value wanted read
        → IfOk result (λ found. found ≡ wanted) }
{
    match read {
        Ok(value) => Ok(Some(value)),
        Err(ReadError::Mismatch(_)) => Ok(None),
        Err(ReadError::OutOfMemory) => Err(AllocError),
    }
}

/// Reads a JavaScript string.
impl FromJson<Estree> for JsString {
    ghost reads = { reads_string };

    fn from_json(alloc: Global, value: Element<'_>) -> Result<JsString, ReadError> {
        read_string(alloc, value)
    }
}

/// Marks readers of the parts of a template.
struct Quasis;

/// Reads the string of a part of a template. It is null where an escape is invalid.
impl FromJson<Quasis> for JsString {
    ghost reads = { spec.reads_cooked };

    #[tactic(auto, using(deno_graph_json::proofs::Reading::reading), unfolding(crate::specs::Kind::reads_cooked))]
    fn from_json(alloc: Global, value: Element<'_>) -> Result<JsString, ReadError> {
        let part: ObjectReader<'_, Texts> = ObjectReader::new(alloc, value)?;
        part.read("value")
    }
}

/// Marks readers of the two strings of a part of a template, `raw` and `cooked`.
struct Texts;

/// Reads the text with its escapes replaced.
impl FromJson<Texts> for JsString {
    ghost reads = { spec.reads_texts };

    #[tactic(auto, using(deno_graph_json::proofs::Reading::reading))]
    fn from_json(alloc: Global, value: Element<'_>) -> Result<JsString, ReadError> {
        let texts = NodeMembers::new(alloc, value)?;
        texts.read("cooked")
    }
}

/// Reads the texts of a template.
fn read_quasis(alloc: Global, value: Element<'_>) -> Result<Items<JsString>, ReadError>
    ensures { IsReadResult (data_of value.entry) (reads_array spec.reads_cooked (data_of value.entry))
        result }
{
    FromJson::<Quasis>::from_json(alloc, value)
}
