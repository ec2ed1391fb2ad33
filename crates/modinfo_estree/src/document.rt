//! Documents with the tree of a parser.

ghost use Rattle.std.specs.Prelude.{◌≡◌, IfErr, MatchResult};
ghost use Rattle.serde_json.specs.Data.{string};
ghost use Rattle.deno_graph_json.specs.Data.{data_of};
ghost use Rattle.deno_graph_json.specs.ObjectReader.{readable, value_of};
ghost use Rattle.deno_graph_json.specs.Read.Result.{IsReadResult};
ghost use Rattle.modinfo_document.specs.Document.{Has, IsDocumentIn, IsNoDocumentIn};
ghost use Rattle.modinfo_document.specs.Named.{ExpectsNameIn, named, reads_named};
ghost use Rattle.modinfo_document.specs.Result.{IsReadResultBy};
ghost use Rattle.modinfo_estree.specs.Document as spec;
ghost use Rattle.modinfo_estree.specs.Document.{reads_estree, units};
ghost use Rattle.modinfo_estree.specs.internal.Document.{reads_tree_in};
ghost use Rattle.modinfo_document.specs.Comments.{HasTree};

use crate::comment_order::comment_ranges;
use crate::comment_ranges::read_comments;
use crate::comments::file_comments;
use crate::offsets::{OffsetUnit, Offsets};
use crate::program::read_file_at;
use crate::source::{NodeMembers, Source};
use crate::tokens::Tokens;
use crate::value_ends::ValueEnds;
use deno_graph_json::read::{read_object, read_str};
use deno_graph_json::{Element, Expected, FromJson, NameList, ObjectReader, ReadError, Tape};
use deno_graph_source::text::SourceRange;
use deno_graph_source::tree::{Comments, MediaType, Node, Program};
use deno_graph_source::values::{Items, Text};
use json::Scratch;
use modinfo_document::{Document, DocumentError};
use std::alloc::Global;
use std::rc::RcStr;

/// Reads a document with the tree of a parser from its text. Returns `Json` if the text isn't JSON, nests
/// deeper than 127 or has a number too large for a float; `Tree` if the JSON has another form;
/// `OutOfMemory` if an allocation fails.
pub fn parse_estree(alloc: Global, text: &str) -> Result<Document, DocumentError>
    ensures { MatchResult result (IsDocumentIn reads_estree text.now)
        (IsNoDocumentIn reads_estree text.now) }
{
    let mut scratch = Scratch::new(alloc);
    let tape = Tape::read(alloc, text, &mut scratch)?;
    Ok(read_estree(alloc, tape.root())?)
}

/// Reads a document with the tree of a parser. Returns `Mismatch` with the path to the first value that
/// isn't as expected, or `OutOfMemory` if an allocation fails.
#[tactic(auto, using(modinfo_document::proofs::Results::reading_by), unfolding(crate::specs::Document::reads_estree))]
pub fn read_estree(alloc: Global, value: Element<'_>) -> Result<Document, ReadError>
    ensures { IsReadResultBy Has (data_of value.entry) (reads_estree (data_of value.entry)) result }
{
    let found = read_object(alloc, value)?;
    let object = ObjectReader::<Document>::of_members(alloc, found);
    let specifier = object.read("specifier")?;
    let media_type = object.read("mediaType")?;
    let text = object.read_str("source")?;
    let unit = object.read_or("offsets", OffsetUnit::Utf16)?;
    let source = RcStr::from_str(alloc, text)?;
    let members = NodeMembers::of_members(alloc, found);
    let tree = read_tree(alloc, unit, text, &members)?;
    Ok(document_of(specifier, media_type, source, tree))
}

/// Returns a document from its parts.
fn document_of(
    specifier: Text,
    media_type: MediaType,
    source: RcStr,
    tree: (Comments, Program),
) -> Document
    ensures { result ≡ record {
      specifier = specifier;
      media_type = media_type;
      source = source;
      comments = tree.0;
      program = tree.1;
    } }
{
    Document {
        specifier,
        media_type,
        source,
        program: tree.1,
        comments: tree.0,
    }
}

/// Reads the comments and the program.
fn read_tree(
    alloc: Global,
    unit: OffsetUnit,
    text: &str,
    members: &NodeMembers<'_>,
) -> Result<(Comments, Program), ReadError>
    ensures { IsReadResultBy HasTree (value_of members.now)
        (spec.reads_tree (record { unit = unit; text = text.now }) (readable members.now)) result }
{
    let offsets = Offsets::new(alloc, unit, text)?;
    let ranges = read_comments(alloc, &offsets, members)?;
    let tokens = Tokens::new(alloc, text, ranges.as_slice())?;
    let source = Source {
        text,
        offsets,
        tokens,
    };
    read_tree_in(alloc, &source, ranges, members)
}

/// Reads the program of a source, and files the comments at some ranges.
fn read_tree_in(
    alloc: Global,
    source: &Source<'_>,
    ranges: Items<SourceRange>,
    members: &NodeMembers<'_>,
) -> Result<(Comments, Program), ReadError>
    ensures { IsReadResultBy HasTree (value_of members.now)
        (reads_tree_in source.now ranges (readable members.now)) result }
{
    let text = source.text;
    let body = read_file_at(alloc, source, members)?;
    let is_empty = is_empty(text, body.as_slice());
    let kept = comment_ranges(alloc, text, ranges)?;
    let ends = ValueEnds::new(alloc, text, body.as_slice())?;
    let comments = file_comments(
        alloc,
        text,
        &source.tokens,
        &ends,
        kept.as_slice(),
        is_empty,
    )?;
    let program = Program {
        range: SourceRange::new(0, text.len()),
        body,
        has_shebang: has_shebang(text),
    };
    Ok((comments, program))
}

/// Returns whether a text with these statements has no token.
fn is_empty(text: &str, body: &[Node]) -> bool
    ensures { result ≡ spec.is_empty text.now body.now }
{
    body.is_empty() && !has_shebang(text)
}

/// Returns whether a text begins with `#!`, after a byte order mark if there is one.
fn has_shebang(text: &str) -> bool
    ensures { result ≡ spec.has_shebang text.now }
{
    text.starts_with("#!") || text.starts_with("\u{FEFF}#!")
}

/// Reads the unit of offsets by its name.
impl FromJson<Document> for OffsetUnit {
    ghost reads = { reads_named units };

    #[tactic(auto, using(deno_graph_json::proofs::Reading::reading), unfolding(modinfo_document::specs::Named::reads_named))]
    fn from_json(alloc: Global, value: Element<'_>) -> Result<OffsetUnit, ReadError> {
        let name = read_str(alloc, value)?;
        unit_named(alloc, name)
    }
}

/// Returns the unit of this name.
#[tactic(auto, unfolding(modinfo_document::specs::Named::named))]
fn unit_named(alloc: Global, name: &str) -> Result<OffsetUnit, ReadError>
    ensures read { IsReadResult (string name.now) (named units name.now) result }
    ensures expected { IfErr result (ExpectsNameIn units) }
{
    match name {
        "utf16" => Ok(OffsetUnit::Utf16),
        "utf8" => Ok(OffsetUnit::Utf8),
        _ => Err(ReadError::expected(alloc, Expected::NameIn(NameList::OffsetUnits))),
    }
}
