//! The ranges of the comments of a document.
#![tactic(auto, using(deno_graph_json::proofs::Reading::reading), unfolding(deno_graph_json::specs::Read::Partial::member_at))]

ghost use Rattle.std.specs.Prelude.{◌≡◌, codes};
ghost use Rattle.deno_graph_json.specs.Data.{data_of};
ghost use Rattle.deno_graph_json.specs.ObjectReader.{readable, value_of};
ghost use Rattle.deno_graph_json.specs.Read.Partial.{member_at};
ghost use Rattle.deno_graph_json.specs.Read.Result.{IsReadResult};
ghost use Rattle.modinfo_estree.specs.Document.{comments_of_program, reads_comment, reads_comments};

use crate::member::{is_present, read_range};
use crate::offsets::Offsets;
use crate::required::{ReadWith, in_member, read_at, required};
use crate::source::NodeMembers;
use deno_graph_json::{Element, ReadError};
use deno_graph_source::text::SourceRange;
use deno_graph_source::values::Items;
use std::alloc::Global;

/// Reads the ranges of the comments of a document: its own, or those of its program.
#[tactic(auto, using(deno_graph_json::proofs::Reading::reading), unfolding(crate::specs::Document::reads_comments))]
pub fn read_comments(
    alloc: Global,
    offsets: &Offsets<'_>,
    members: &NodeMembers<'_>,
) -> Result<Items<SourceRange>, ReadError>
    ensures { IsReadResult (value_of members.now) (reads_comments offsets.now (readable members.now)) result }
{
    if is_present(members, "comments") {
        read_at(alloc, offsets, members, "comments")
    } else {
        read_comments_at(alloc, offsets, members)
    }
}

/// Reads the ranges of the comments of the program that is the member `program`.
fn read_comments_at(
    alloc: Global,
    offsets: &Offsets<'_>,
    members: &NodeMembers<'_>,
) -> Result<Items<SourceRange>, ReadError>
    ensures { IsReadResult (value_of members.now)
        (member_at (comments_of_program offsets.now) (codes "program") (readable members.now)) result }
{
    let value = required(alloc, members, "program")?;
    let read = read_program_comments(alloc, offsets, value);
    in_member(alloc, members, "program", read)
}

/// Reads the ranges of the comments of a program, none if it has no member `comments`.
#[tactic(auto, using(deno_graph_json::proofs::Reading::reading), unfolding(crate::specs::Document::comments_of_program))]
fn read_program_comments(
    alloc: Global,
    offsets: &Offsets<'_>,
    program: Element<'_>,
) -> Result<Items<SourceRange>, ReadError>
    ensures { IsReadResult (data_of program.entry)
        (comments_of_program offsets.now (data_of program.entry)) result }
{
    let members = NodeMembers::new(alloc, program)?;
    if is_present(&members, "comments") {
        read_at(alloc, offsets, &members, "comments")
    } else {
        Ok(Items::new(alloc))
    }
}

/// Reads the range of a comment.
impl<'t> ReadWith<Offsets<'t>> for SourceRange {
    ghost reads = { reads_comment };

    #[tactic(auto, using(deno_graph_json::proofs::Reading::reading), unfolding(crate::specs::Document::reads_comment))]
    fn read_with(
        alloc: Global,
        offsets: &Offsets<'t>,
        value: Element<'_>,
    ) -> Result<SourceRange, ReadError> {
        let members = NodeMembers::new(alloc, value)?;
        read_range(offsets, &members)
    }
}
