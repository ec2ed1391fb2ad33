//! The members of a node that may have nodes.

ghost use Rattle.std.specs.Prelude.{◌≡◌, ◌==◌, Bool, IfOk, IfSome, OnOk, bytes_eq, filter, map};
ghost use Rattle.std.specs.List.{list_any};
ghost use Rattle.deno_graph_base.specs.TextMap.{insert_entry};
ghost use Rattle.deno_graph_json.specs.Data.{data_of, members_data};
ghost use Rattle.modinfo_estree.specs.internal.Candidates.{AreCandidates, entry_of, has_inside};
ghost use Rattle.modinfo_estree.specs.internal.Candidates.{is_inner, is_named};

use deno_graph_base::values::TextMap;
use deno_graph_json::{Element, Members, View};
use std::alloc::{AllocError, Global};
use std::cmp::Ordering;

/// The most candidates that are put into order one by one.
const MAX: usize = 16;

/// A member whose value is an object or an array.
#[derive(Clone, Copy)]
pub struct Candidate<'n, 'v> {
    pub name: &'n str,
    pub value: Element<'v>,
}

/// Returns the members that are objects or arrays, in the order of their names. Returns None if there are
/// more than 16, or if a member after one of them has the same name.
pub fn candidates<'v>(
    alloc: Global,
    members: Members<'v>,
) -> Result<Option<Vec<Candidate<'v, 'v>>>, AllocError>
    ensures { IfOk result (λ found. IfSome found (λ found.
        AreCandidates (members_data members.entry) found.items)) }
{
    let mut found = Vec::new(alloc);
    for (name, value) in members {
        if has_name(&found, name) {
            return Ok(None);
        }
        if has_inside(value) {
            if found.len() == MAX {
                return Ok(None);
            }
            insert(&mut found, name, value)?;
        }
    }
    Ok(Some(found))
}

/// Returns the members that are objects or arrays, from all members in the order of their names. The only
/// error is that an allocation fails.
pub fn candidates_of<'n, 'v>(
    alloc: Global,
    members: &'n TextMap<Element<'v>>,
) -> Result<Vec<Candidate<'n, 'v>>, AllocError>
    ensures { IfOk result (λ found. map entry_of found.items ≡ filter is_inner members.now) }
{
    let mut found = Vec::new(alloc);
    for (name, value) in members {
        if has_inside(*value) {
            found.push(Candidate {
                name,
                value: *value,
            })?;
        }
    }
    Ok(found)
}

/// Returns whether a candidate has this name.
fn has_name(found: &[Candidate<'_, '_>], name: &str) -> bool
    ensures { result ≡ list_any (is_named name.now) (map entry_of found.now) }
{
    for candidate in found {
        if candidate.name == name {
            return true;
        }
    }
    false
}

/// Returns whether a value is an object or an array.
fn has_inside(value: Element<'_>) -> bool
    ensures { result ≡ has_inside (data_of value.entry) }
{
    matches!(value.view(), View::Object(_) | View::Array(_))
}

/// Inserts a candidate where its name belongs, or replaces the one of its name.
fn insert<'v>(
    found: &mut Vec<Candidate<'v, 'v>>,
    name: &'v str,
    value: Element<'v>,
) -> Result<(), AllocError>
    ensures { OnOk result (map entry_of found.new.items
        ≡ insert_entry (map entry_of found.old.items) name.now value.entry) }
{
    let mut at = 0;
    while at < found.len() {
        match name.cmp(found[at].name) {
            Ordering::Less => break,
            Ordering::Equal => {
                found[at].value = value;
                return Ok(());
            }
            Ordering::Greater => at += 1,
        }
    }
    found.insert(at, Candidate { name, value })?;
    Ok(())
}
