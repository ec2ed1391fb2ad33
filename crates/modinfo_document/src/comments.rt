//! Reading comments.

ghost use Rattle.std.specs.Prelude.{◌≡◌, [], ◌∷◌, OnOk};
ghost use Rattle.deno_graph_json.specs.ObjectReader.{readable, value_of};
ghost use Rattle.deno_graph_json.specs.Read.Result.{IsReadResult};
ghost use Rattle.modinfo_document.specs.Comments.{AreThoseOf, side_name};
ghost use Rattle.modinfo_document.specs.Comments.{reads_comment, reads_entry, reads_side, reads_sides};
ghost use Rattle.modinfo_document.specs.Result.{IsReadResultBy};
ghost use Rattle.modinfo_document.specs.internal.Comments.{AddsOn, AreAppendedOn};

use crate::document::Document;
use deno_graph_json::{Element, FromJson, ObjectReader, ReadError};
use deno_graph_source::tree::{CommentSide, Comments, DependencyComment};
use deno_graph_source::values::Items;
use std::alloc::{AllocError, Global};

/// The name of the member with the comments of a side.
pub fn member_of(side: CommentSide) -> &'static str
    ensures { result.now ≡ side_name side }
{
    match side {
        CommentSide::Leading => "leading",
        CommentSide::Trailing => "trailing",
    }
}

/// An entry of `leading` or `trailing`: comments, and the position at which they are filed, an offset in
/// bytes.
#[derive(Drop)]
pub struct FiledEntry {
    pub position: usize,
    pub comments: Items<DependencyComment>,
}

/// Reads an entry, `{"pos":OFFSET,"comments":[COMMENT ..]}`.
impl FromJson<Document> for FiledEntry {
    ghost reads = { reads_entry };

    #[tactic(auto, using(deno_graph_json::proofs::Reading::reading), unfolding(crate::specs::Comments::reads_entry))]
    fn from_json(alloc: Global, value: Element<'_>) -> Result<FiledEntry, ReadError> {
        let object = ObjectReader::<Document>::new(alloc, value)?;
        let position = object.read("pos")?;
        let comments = object.read("comments")?;
        Ok(FiledEntry { position, comments })
    }
}

/// Reads the comments of a document: its members `leading` and `trailing`, arrays of entries. Keeps
/// their order.
pub fn read_comments(alloc: Global, object: &ObjectReader<Document>) -> Result<Comments, ReadError>
    ensures { IsReadResultBy AreThoseOf (value_of object.now) (reads_sides (readable object.now)) result }
{
    let leading = read_side(object, CommentSide::Leading)?;
    let trailing = read_side(object, CommentSide::Trailing)?;
    let mut comments = Comments::new(alloc);
    file_entries(leading, CommentSide::Leading, &mut comments)?;
    file_entries(trailing, CommentSide::Trailing, &mut comments)?;
    Ok(comments)
}

/// Reads the entries of one side, none if the member is missing.
#[tactic(auto, unfolding(crate::specs::Comments::reads_side))]
fn read_side(
    object: &ObjectReader<Document>,
    side: CommentSide,
) -> Result<Items<FiledEntry>, ReadError>
    ensures { IsReadResult (value_of object.now) (reads_side side (readable object.now)) result }
{
    object.read_list(member_of(side))
}

/// Files the comments of each entry on one side.
fn file_entries(
    entries: Items<FiledEntry>,
    side: CommentSide,
    comments: &mut Comments,
) -> Result<(), AllocError>
    ensures { OnOk result (AreAppendedOn side comments.old comments.new entries) }
{
    for entry in entries.into_vec() {
        file_entry(entry, side, comments)?;
    }
    Ok(())
}

/// Files the comments of an entry on one side.
fn file_entry(
    entry: FiledEntry,
    side: CommentSide,
    comments: &mut Comments,
) -> Result<(), AllocError>
    ensures { OnOk result (AreAppendedOn side comments.old comments.new (entry ∷ [])) }
{
    let FiledEntry {
        position,
        comments: filed,
    } = entry;
    for comment in filed.into_vec() {
        add(comments, side, position, comment)?;
    }
    Ok(())
}

/// Files a comment at a position of one side.
fn add(
    comments: &mut Comments,
    side: CommentSide,
    pos: usize,
    comment: DependencyComment,
) -> Result<(), AllocError>
    ensures { OnOk result (AddsOn side comments.old comments.new pos comment) }
{
    match side {
        CommentSide::Leading => comments.add_leading(pos, comment),
        CommentSide::Trailing => comments.add_trailing(pos, comment),
    }
}

/// Reads a comment, `{"kind":"line","range":[START,END],"text":TEXT}`, or with the kind `block`.
impl FromJson<Document> for DependencyComment {
    ghost reads = { reads_comment };

    #[tactic(auto, using(deno_graph_json::proofs::Reading::reading), unfolding(crate::specs::Comments::reads_comment))]
    fn from_json(alloc: Global, value: Element<'_>) -> Result<DependencyComment, ReadError> {
        let object = ObjectReader::<Document>::new(alloc, value)?;
        let kind = object.read("kind")?;
        let range = object.read("range")?;
        let text = object.read("text")?;
        Ok(DependencyComment { kind, range, text })
    }
}
