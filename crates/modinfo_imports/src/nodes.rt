//! The pieces of a text that the nodes of its tree have.
#![tactic(auto, unfolding(deno_graph_source::specs::Node::kind_of, deno_graph_source::specs::Node::range_of, deno_graph_source::specs::Node::children_of))]

ghost use Rattle.std.specs.Prelude.{◌≡◌, ◌++◌, codes, IfOk, OnOk, map, option_map};
ghost use Rattle.std.specs.List.{flat_map};
ghost use Rattle.std.specs.Option.{option_copied, option_to_list};
ghost use Rattle.deno_graph_source.specs.Node.{children_of, kind_of, literal_of, nodes_in, range_of};
ghost use Rattle.modinfo_imports.specs.Nodes.{
  AreMarks,
  AreClaims,
  begin_claim,
  begin_form,
  call_form,
  marks_of,
  claims_of,
  export_claim,
  has_names,
  literal_claim,
  mark_at,
  module_claim,
  name_claim,
  part_claim,
  phase_form,
  specifier_marks,
  specifier_of,
  value_claim,
};
ghost use Rattle.modinfo_imports.specs.Attributes.{
  attribute_marks,
  entries_of,
  hidden_claim,
  key_claims,
};
ghost use Rattle.modinfo_imports.specs.Spans.{no_piece, piece_at, word_claim};

use crate::attributes::{claim_keys, entries_of, hidden_claim, mark_attributes};
use crate::claims::{Form, Mark};
use crate::keyword::{has_escape, may_be_require};
use crate::spans::{bytes_at, no_piece, piece_at, word_claim};
use deno_graph_base::text::SourceRange;
use deno_graph_source::tree::{Callee, ImportPhase, Kind, Node, Program, StrLit};
use modinfo_pieces::bytes::{byte_at, has_bytes};
use modinfo_pieces::piece::{Piece, PieceKind};
use std::alloc::{AllocError, Global};

/// Returns the pieces that the nodes of a program and the parts of its templates have, in the order of the
/// text.
#[tactic(auto, unfolding(deno_graph_source::specs::Node::nodes_of))]
pub fn claims_of(
    alloc: Global,
    text: &[u8],
    program: &Program,
    parts: &[SourceRange],
) -> Result<Vec<Piece>, AllocError>
    ensures { IfOk result (λ claims. AreClaims text.now program.now parts.now claims.items) }
{
    let mut claims = part_claims(alloc, text, parts)?;
    claim_nodes(text, program.body.as_slice(), &mut claims)?;
    claims.sort_by_key(|claim| claim.start)?;
    Ok(claims)
}

/// Returns the pieces that parts of templates have.
fn part_claims(alloc: Global, text: &[u8], parts: &[SourceRange]) -> Result<Vec<Piece>, AllocError>
    ensures { IfOk result (λ claims. claims.items ≡ map (part_claim text.now) parts.now) }
{
    let mut claims = Vec::with_capacity(alloc, parts.len())?;
    for part in parts {
        claims.push(part_claim(text, *part))?;
    }
    Ok(claims)
}

/// Returns the piece of a part of a template, with the marks around it.
fn part_claim(text: &[u8], part: SourceRange) -> Piece
    ensures { result ≡ part_claim text.now part }
{
    if part.end < text.len() {
        let end_mark = if byte_at(text, part.end) == b'`' {
            1
        } else {
            2
        };
        Piece {
            kind: PieceKind::Template,
            start: part.start.saturating_sub(1),
            end: part.end + end_mark,
        }
    } else {
        no_piece(part.start)
    }
}

/// Adds the pieces that nodes, and all nodes below them, have.
fn claim_nodes(text: &[u8], nodes: &[Node], claims: &mut Vec<Piece>) -> Result<(), AllocError>
    ensures { OnOk result (claims.new.items
        ≡ claims.old.items ++ flat_map (claims_of text.now) (flat_map nodes_in nodes.now)) }
{
    for node in nodes {
        claim_below(text, node, claims)?;
    }
    Ok(())
}

/// Adds the pieces that a node, and all nodes below it, have.
fn claim_below(text: &[u8], node: &Node, claims: &mut Vec<Piece>) -> Result<(), AllocError>
    ensures { OnOk result (claims.new.items
        ≡ claims.old.items ++ flat_map (claims_of text.now) (nodes_in node.now)) }
{
    claim_node(text, node, claims)?;
    for child in node.children.as_slice() {
        claim_below(text, child, claims)?;
    }
    Ok(())
}

/// Adds the pieces that a node has.
fn claim_node(text: &[u8], node: &Node, claims: &mut Vec<Piece>) -> Result<(), AllocError>
    ensures { OnOk result (claims.new.items ≡ claims.old.items ++ claims_of text.now node.now) }
{
    claim(begin_claim(text, node.range.start, &node.kind), claims)?;
    claim(literal_of(node.range, &node.kind), claims)?;
    claim(value_claim(text, node.range, &node.kind), claims)?;
    claim(hidden_claim(node), claims)?;
    claim_keys(text, entries_of(node), claims)
}

/// Adds a piece, if there is one.
fn claim(piece: Option<Piece>, claims: &mut Vec<Piece>) -> Result<(), AllocError>
    ensures { OnOk result (claims.new.items ≡ claims.old.items ++ option_to_list piece) }
{
    match piece {
        Some(piece) => Ok(claims.push(piece)?),
        None => Ok(()),
    }
}

/// Returns the piece that a node of a kind begins with, if it must begin with one.
fn begin_claim(text: &[u8], at: usize, kind: &Kind) -> Option<Piece>
    ensures { result ≡ begin_claim text.now at kind.now }
{
    match kind {
        Kind::ImportDecl { .. } | Kind::ImportType { .. } | Kind::ImportMeta => {
            Some(import_claim(text, at))
        }
        Kind::NamedExport { .. }
        | Kind::ExportAll { .. }
        | Kind::ImportEquals {
            is_export: true,
            ..
        } => Some(word_claim(text, at, b"export")),
        Kind::ExportOther => Some(export_claim(text, at)),
        Kind::ImportEquals { .. } => Some(import_claim(text, at)),
        Kind::ModuleDecl { .. } => Some(module_claim(text, at)),
        Kind::Call {
            callee: Callee::Import(_),
            ..
        } => Some(import_claim(text, at)),
        _ => None,
    }
}

/// Returns the word `import` at an offset.
fn import_claim(text: &[u8], at: usize) -> Piece
    ensures { result ≡ word_claim text.now at (codes "import") }
{
    word_claim(text, at, b"import")
}

/// Returns the word `export` at an offset, or the `@` of a decorator before it.
fn export_claim(text: &[u8], at: usize) -> Piece
    ensures { result ≡ export_claim text.now at }
{
    if at < text.len() && byte_at(text, at) == b'@' {
        Piece {
            kind: PieceKind::Punctuation,
            start: at,
            end: at + 1,
        }
    } else {
        word_claim(text, at, b"export")
    }
}

/// Returns the word `module` at an offset, or the `declare` before it.
fn module_claim(text: &[u8], at: usize) -> Piece
    ensures { result ≡ module_claim text.now at }
{
    if has_bytes(text, at, b"module") {
        word_claim(text, at, b"module")
    } else {
        word_claim(text, at, b"declare")
    }
}

/// Returns the string that a node of a kind has.
fn literal_of(range: SourceRange, kind: &Kind) -> Option<Piece>
    ensures { result ≡ option_map (literal_claim range) (literal_of kind.now) }
{
    match kind.literal() {
        Some(literal) => Some(literal_claim(range, literal)),
        None => None,
    }
}

/// Returns the string of a literal, or no piece if the string isn't inside a range.
fn literal_claim(range: SourceRange, literal: &StrLit) -> Piece
    ensures { result ≡ literal_claim range literal.now }
{
    if range.start <= literal.range.start && literal.range.end <= range.end {
        piece_at(PieceKind::String, literal.range)
    } else {
        no_piece(literal.range.start)
    }
}

/// Returns the string or the name that a node of a kind is.
fn value_claim(text: &[u8], range: SourceRange, kind: &Kind) -> Option<Piece>
    ensures { result ≡ value_claim text.now range kind.now }
{
    match kind {
        Kind::Str(_) => Some(piece_at(PieceKind::String, range)),
        Kind::Ident(name) => Some(name_claim(text, range, name.as_str().as_bytes())),
        _ => None,
    }
}

/// Returns the word of a name, or no piece if the word is `import` or spells another name.
fn name_claim(text: &[u8], range: SourceRange, name: &[u8]) -> Piece
    ensures { result ≡ name_claim text.now range name.now }
{
    let word = bytes_at(text, range);
    if word == b"import".as_slice() || !(has_escape(word) || word == name) {
        no_piece(range.start)
    } else {
        piece_at(PieceKind::Word, range)
    }
}

/// Returns the marks of a program, in the order of the text: the words of its calls that may be `require`,
/// the specifiers of its declarations, and the words that those of types alone or in another phase begin
/// with.
#[tactic(auto, unfolding(deno_graph_source::specs::Node::nodes_of))]
pub fn marks_of(alloc: Global, text: &[u8], program: &Program) -> Result<Vec<Mark>, AllocError>
    ensures { IfOk result (λ marks. AreMarks text.now program.now marks.items) }
{
    let mut marks = Vec::new(alloc);
    add_marks(text, program.body.as_slice(), &mut marks)?;
    marks.sort_by_key(|mark| mark.start)?;
    Ok(marks)
}

/// Adds the marks of nodes, and of all nodes below them.
fn add_marks(text: &[u8], nodes: &[Node], marks: &mut Vec<Mark>) -> Result<(), AllocError>
    ensures { OnOk result (marks.new.items
        ≡ marks.old.items ++ flat_map (marks_of text.now) (flat_map nodes_in nodes.now)) }
{
    for node in nodes {
        add_marks_below(text, node, marks)?;
    }
    Ok(())
}

/// Adds the marks of a node, and of all nodes below it.
fn add_marks_below(text: &[u8], node: &Node, marks: &mut Vec<Mark>) -> Result<(), AllocError>
    ensures { OnOk result (marks.new.items
        ≡ marks.old.items ++ flat_map (marks_of text.now) (nodes_in node.now)) }
{
    add_mark(text, node, marks)?;
    for child in node.children.as_slice() {
        add_marks_below(text, child, marks)?;
    }
    Ok(())
}

/// Adds the marks of a node.
fn add_mark(text: &[u8], node: &Node, marks: &mut Vec<Mark>) -> Result<(), AllocError>
    ensures { OnOk result (marks.new.items ≡ marks.old.items ++ marks_of text.now node.now) }
{
    mark_token(
        node.range.start,
        begin_form(text, node.range, node.children.as_slice(), &node.kind),
        marks,
    )?;
    mark_specifier(node, marks)
}

/// Adds the mark of the token at an offset, if there is one.
fn mark_token(at: usize, form: Option<Form>, marks: &mut Vec<Mark>) -> Result<(), AllocError>
    ensures { OnOk result (marks.new.items ≡ marks.old.items ++ mark_at at form) }
{
    match form {
        Some(form) => Ok(marks.push(Mark { start: at, form })?),
        None => Ok(()),
    }
}

/// Adds the marks of a declaration's specifier, and of its attributes, if a node is one that has them.
fn mark_specifier(node: &Node, marks: &mut Vec<Mark>) -> Result<(), AllocError>
    ensures { OnOk result (marks.new.items ≡ marks.old.items
        ++ specifier_marks (kind_of node.now) (children_of node.now) (specifier_of (kind_of node.now))) }
{
    let Some(literal) = specifier_of(&node.kind) else {
        return Ok(());
    };
    marks.push(Mark {
        start: literal.range.start,
        form: Form::Specifier {
            has_names: has_names(&node.kind),
            has_with: node.kind.has_with(),
        },
    })?;
    mark_attributes(literal.range.start, entries_of(node), marks)
}

/// Returns the specifier of a declaration, if a node of a kind is one that has it.
fn specifier_of(kind: &Kind) -> Option<&StrLit>
    ensures { option_copied result ≡ specifier_of kind.now }
{
    match kind {
        Kind::ImportEquals { .. } | Kind::ImportType { .. } => None,
        _ => kind.literal(),
    }
}

/// Returns whether an import names something, true of every other node.
fn has_names(kind: &Kind) -> bool
    ensures { result ≡ has_names kind.now }
{
    match kind {
        Kind::ImportDecl { has_specifiers, .. } => *has_specifiers,
        _ => true,
    }
}

/// Returns what a node says of the token that it begins with, if it says something.
fn begin_form(text: &[u8], range: SourceRange, children: &[Node], kind: &Kind) -> Option<Form>
    ensures { result ≡ begin_form text.now range children.now kind.now }
{
    match (children, kind) {
        (
            [callee, ..],
            Kind::Call {
                callee: Callee::Expr,
                ..
            },
        ) => call_form(text, span(range, callee.range), &callee.kind),
        (
            _,
            Kind::ImportDecl {
                type_only: false,
                phase,
                ..
            },
        ) => phase_form(*phase),
        (
            _,
            Kind::ImportDecl { .. }
            | Kind::NamedExport {
                type_only: true,
                ..
            }
            | Kind::ExportAll {
                type_only: true,
                ..
            },
        ) => Some(Form::Types),
        _ => None,
    }
}

/// Returns what an import in a phase says of its first word.
fn phase_form(phase: ImportPhase) -> Option<Form>
    ensures { result ≡ phase_form phase }
{
    match phase {
        ImportPhase::Evaluation => None,
        ImportPhase::Source => Some(Form::Source),
        ImportPhase::Defer => Some(Form::Defer),
    }
}

/// Returns what a call of a callee says of the word at a range, if it is a name that may be `require`.
fn call_form(text: &[u8], range: SourceRange, callee: &Kind) -> Option<Form>
    ensures { result ≡ call_form text.now range callee.now }
{
    match callee {
        Kind::Ident(_) if may_be_require(bytes_at(text, range)) => Some(Form::Call),
        _ => None,
    }
}

/// Returns the range from the start of one to the end of another.
fn span(range: SourceRange, other: SourceRange) -> SourceRange
    ensures { result ≡ record { start = range.start; end = other.end } }
{
    SourceRange {
        start: range.start,
        end: other.end,
    }
}
