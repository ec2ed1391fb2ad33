#![tactic(auto, unfolding(crate::proofs::Unfolded::node_parts))]

ghost use Rattle.std.specs.Prelude.{◌≡◌, ◌<◌, ◌∷◌, IfOk, IsTrue, OnOk, true, length, map, ◌++◌, [], All};
ghost use Rattle.deno_graph_source.specs.Node.{kind_of, children_of, nodes_in, IsShaped};
ghost use Rattle.deno_graph_dep.specs.Argument.{HasForm, form_seen, part_seen, part_of, quasi_part, template_form, template_parts, is_sum, is_binary, is_string};
ghost use Rattle.deno_graph_dep.specs.Value.{SpellsItsText};

use deno_graph_base::text::JsString;
use deno_graph_base::values::Items;
use deno_graph_source::tree::{BinaryOp, Kind, Node};
use std::alloc::{AllocError, Global};

/// A part of a template or of a sum of strings.
#[derive(Clone, Copy, Debug, PartialEq, Eq)]
pub enum DynamicTemplatePart<'a> {
    String(&'a str),
    /// An expression of which nothing is known.
    Expr,
}

/// What is known of the first argument of a dynamic import or a `require`.
#[derive(Debug, PartialEq, Eq, Drop)]
pub enum DynamicArgument<'a> {
    String(&'a str),
    Template(Vec<DynamicTemplatePart<'a>>),
    /// An expression of which nothing is known.
    Expr,
}

impl<'a> DynamicArgument<'a> {
    /// Returns an equal argument that borrows the same texts. Fails only if an allocation fails.
    pub fn try_clone(&self, alloc: Global) -> Result<DynamicArgument<'a>, AllocError>
        ensures { IfOk result (λ copy. form_seen copy ≡ form_seen self.now) }
    {
        match self {
            DynamicArgument::String(text) => Ok(DynamicArgument::String(*text)),
            DynamicArgument::Template(parts) => {
                Ok(DynamicArgument::Template(Vec::from_slice(alloc, parts)?))
            }
            DynamicArgument::Expr => Ok(DynamicArgument::Expr),
        }
    }
}

/// Returns what is known of the text that an argument evaluates to.
///
/// A string literal, or a template without expressions, is `String` with its text. A template with
/// expressions is `Template`: its texts that are not empty, and `Expr` for each expression. A sum
/// that begins with a string literal is `Template` too: each string literal, even an empty one, and
/// `Expr` for each other operand. Any other expression is `Expr`. Fails only if an allocation fails.
pub fn argument_of<'a>(alloc: Global, node: &'a Node) -> Result<DynamicArgument<'a>, AllocError>
    requires { All IsShaped (nodes_in node.now) }
    ensures form { IfOk result (λ argument. HasForm node.now (form_seen argument)) }

    // For any texts of the unknown expressions, the parts spell the text of the whole.
    ensures spells { IfOk result (λ argument. SpellsItsText node.now (form_seen argument)) }
{
    match &node.kind {
        Kind::Str(value) => Ok(DynamicArgument::String(value.to_str_lossy())),
        Kind::Template(quasis) => template_argument(alloc, quasis.as_slice()),
        Kind::Binary(_) => sum_argument(alloc, node),
        _ => Ok(DynamicArgument::Expr),
    }
}

/// Returns the argument that a template with these quasis is.
fn template_argument<'a>(
    alloc: Global,
    quasis: &'a [JsString],
) -> Result<DynamicArgument<'a>, AllocError>
    requires { 0 < length quasis.now }
    ensures { IfOk result (λ argument. form_seen argument ≡ template_form quasis.now) }
{
    let (first, rest) = (&quasis[0], &quasis[1..]);
    if rest.is_empty() {
        return Ok(DynamicArgument::String(first.to_str_lossy()));
    }
    Ok(DynamicArgument::Template(template_parts(alloc, first, rest)?))
}

/// Returns the parts of a template: its first quasi, then an unknown before each further quasi.
fn template_parts<'a>(
    alloc: Global,
    first: &'a JsString,
    rest: &'a [JsString],
) -> Result<Vec<DynamicTemplatePart<'a>>, AllocError>
    ensures { IfOk result (λ parts.
        map part_seen parts.items ≡ template_parts (first.now ∷ rest.now)) }
{
    let mut parts = Items::new(alloc);
    push_quasi(&mut parts, first)?;
    for quasi in rest {
        parts.push(DynamicTemplatePart::Expr)?;
        push_quasi(&mut parts, quasi)?;
    }
    Ok(parts.into_vec())
}

/// Appends a quasi, unless the quasi is empty.
fn push_quasi<'a>(
    parts: &mut Items<DynamicTemplatePart<'a>>,
    quasi: &'a JsString,
) -> Result<(), AllocError>
    ensures { OnOk result (map part_seen parts.new
        ≡ map part_seen parts.old ++ quasi_part quasi.now) }
{
    if !quasi.is_empty() {
        parts.push(DynamicTemplatePart::String(quasi.to_str_lossy()))?;
    }
    Ok(())
}

/// Returns the part that an operand contributes to a sum.
fn operand_part(operand: &Node) -> DynamicTemplatePart<'_>
    ensures { part_seen result ≡ part_of operand.now }
{
    match &operand.kind {
        Kind::Str(value) => DynamicTemplatePart::String(value.to_str_lossy()),
        _ => DynamicTemplatePart::Expr,
    }
}

/// Returns whether a node is an expression `left + right`.
fn is_sum(node: &Node) -> bool
    ensures { result ≡ is_sum (kind_of node.now) }
{
    matches!(node.kind, Kind::Binary(BinaryOp::Add))
}

/// Returns whether a node is a string literal.
fn is_string(node: &Node) -> bool
    ensures { result ≡ is_string (kind_of node.now) }
{
    matches!(node.kind, Kind::Str(_))
}

/// Returns the left and the right child of a binary node.
fn operands(node: &Node) -> (&Node, &Node)
    requires binary { is_binary (kind_of node.now) ≡ true }
    requires shaped { All IsShaped (nodes_in node.now) }
    ensures { children_of node.now ≡ result.0.now ∷ result.1.now ∷ [] }
{
    let children = node.children.as_slice();
    (&children[0], &children[1])
}

/// Returns the argument that a binary node is: the parts of a sum whose first operand is a string
/// literal, or else `Expr`.
fn sum_argument<'a>(alloc: Global, node: &'a Node) -> Result<DynamicArgument<'a>, AllocError>
    requires binary { is_binary (kind_of node.now) ≡ true }
    requires shaped { All IsShaped (nodes_in node.now) }
    ensures { IfOk result (λ argument. HasForm node.now (form_seen argument)) }
{
    let mut parts = Vec::new(alloc);
    let mut operand = node;
    while is_sum(operand) {
        let (left, right) = operands(operand);
        parts.push(operand_part(right))?;
        operand = left;
    }
    if !is_string(operand) {
        return Ok(DynamicArgument::Expr);
    }
    parts.push(operand_part(operand))?;
    parts.reverse();
    Ok(DynamicArgument::Template(parts))
}
