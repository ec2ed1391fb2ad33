//! Finding the element of a document that a comment was read from.

ghost use Rattle.std.specs.Prelude.{◌≡◌, [], ◌∷◌, IfSome, List, Some, codes, option_map};
ghost use Rattle.serde_json.specs.Data.{Data, array};
ghost use Rattle.deno_graph_json.specs.Data.{data_of, elements_data};
ghost use Rattle.deno_graph_json.specs.Read.Error.{data_at};
ghost use Rattle.deno_graph_json.specs.Read.Partial.{as_usize, reads_items};
ghost use Rattle.deno_graph_json.specs.declared.error.Step.TheVariants.{Item, Member};
ghost use Rattle.modinfo_document.specs.declared.comments.FiledEntry.{FiledEntry};
ghost use Rattle.modinfo_document.specs.Comments.{reads_entry};
ghost use Rattle.modinfo_document.specs.Document.{Contents, reads_document};
ghost use Rattle.modinfo_document.specs.Lookup.{IsCommentAt, side_entries};
ghost use Rattle.modinfo_document.specs.Place.{comment_path};
ghost use Rattle.modinfo_document.specs.internal.Lookup.{entry_items, member_items, member_of as member_data};

use crate::comments::member_of;
use deno_graph_json::{Element, Elements, View};
use deno_graph_source::tree::CommentSide;

/// The element of a comment, and where it is in the document.
#[derive(Drop)]
pub struct FoundComment<'a> {
    pub value: Element<'a>,
    /// Index of the entry, counted from zero.
    pub entry: usize,
    /// Index of the comment in the entry.
    pub number: usize,
}

/// Finds a comment by its side, its position, an offset in bytes, and its number from zero. The comments
/// of all entries with that position count, in the order of the document.
pub fn find_comment<'a>(
    root: Element<'a>,
    side: CommentSide,
    position: usize,
    number: usize,
) -> Option<FoundComment<'a>>
    ensures comment { (contents : Contents) → reads_document (data_of root.entry) ≡ Some contents
        → IsCommentAt (side_entries contents.comments side) position number
        (option_map (λ found. data_of found.value) result) }
    ensures path { IfSome result (λ found.
        data_at (comment_path side found.entry found.number) (data_of root.entry)
        ≡ Some (data_of found.value)) }
{
    let entries = root.members()?.get(member_of(side))?.elements()?;
    comment_in(entries, position, number)
}

/// Like `find_comment`, among these entries.
fn comment_in<'a>(entries: Elements<'a>, position: usize, number: usize) -> Option<FoundComment<'a>>
    ensures comment { (read : List FiledEntry)
        → reads_items reads_entry (elements_data entries.entry) ≡ Some read
        → IsCommentAt read position number (option_map (λ found. data_of found.value) result) }
    ensures path { IfSome result (λ found.
        data_at (Item found.number ∷ Member (codes "comments") ∷ Item found.entry ∷ [])
        (array (elements_data entries.entry)) ≡ Some (data_of found.value)) }
{
    let mut passed = 0usize;
    let mut left = number;
    for entry in entries {
        let index = passed;
        passed += 1;
        if let Some(comments) = comments_at(entry, position) {
            let filed = comments.len();
            if left < filed {
                let value = comments.get(left)?;
                return Some(FoundComment {
                    value,
                    entry: index,
                    number: left,
                });
            }
            left -= filed;
        }
    }
    None
}

/// Finds the comments of an entry. `None` if the entry has another position.
#[tactic(auto, unfolding(crate::specs::internal::Lookup::entry_items, deno_graph_json::specs::Read::Partial::member_at))]
fn comments_at<'a>(entry: Element<'a>, position: usize) -> Option<Elements<'a>>
    ensures { option_map elements_data result ≡ entry_items position (data_of entry.entry) }
{
    let members = entry.members()?;
    if whole_of(members.get("pos")?)? != position {
        return None;
    }
    members.get("comments")?.elements()
}

/// The last member of this name.
#[tactic(auto, unfolding(crate::specs::internal::Lookup::member_of))]
pub fn member<'a>(value: Element<'a>, name: &str) -> Option<Element<'a>>
    ensures { option_map data_of result ≡ member_data name.now (data_of value.entry) }
{
    value.members()?.get(name)
}

/// The elements of the last member of this name.
#[tactic(auto, unfolding(crate::specs::internal::Lookup::member_items))]
pub fn elements<'a>(value: Element<'a>, name: &str) -> Option<Elements<'a>>
    ensures { option_map elements_data result ≡ member_items name.now (data_of value.entry) }
{
    member(value, name)?.elements()
}

/// The whole number from 0 to 2^64 - 1.
#[tactic(auto, unfolding(deno_graph_json::specs::Read::Partial::as_usize))]
fn whole_of(value: Element<'_>) -> Option<usize>
    ensures { result ≡ as_usize (data_of value.entry) }
{
    match value.view() {
        View::Whole(number) => Some(number as usize),
        _ => None,
    }
}
