//! The members of an object in the order of their names' bytes.

ghost use Rattle.std.specs.Prelude.{◌≡◌, true, IfOk};
ghost use Rattle.deno_graph_json.specs.Data.{members_data};
ghost use Rattle.deno_graph_json.specs.View.{members_of};
ghost use Rattle.deno_graph_info.specs.internal.Ordered.{listed, ordered_data};

use crate::conversion::names::comes_after;
use deno_graph_base::values::TextMap;
use deno_graph_json::{Element, Members};
use std::alloc::{AllocError, Global};

/// The last value of each name, in the order of the names' bytes.
#[derive(Drop)]
pub enum OrderedMembers<'a> {
    /// Members whose names ascend in the text.
    Listed(Members<'a>),
    /// Members that had to be sorted.
    Sorted(TextMap<Element<'a>>),
}

/// Puts members in order. Allocates nothing if their names ascend. The only error is that an allocation
/// fails.
pub fn in_order<'a>(alloc: Global, members: Members<'a>) -> Result<OrderedMembers<'a>, AllocError>
    ensures { IfOk result (λ ordered. ordered_data ordered ≡ members_data members.entry) }
{
    if names_ascend(members) {
        Ok(OrderedMembers::Listed(members))
    } else {
        Ok(OrderedMembers::Sorted(members.sorted(alloc)?))
    }
}

/// Returns true only if each name is above the name before it, compared byte by byte.
fn names_ascend(members: Members<'_>) -> bool
    ensures { result ≡ true → members_data members.entry ≡ listed (members_of members.entry) }
{
    let mut last = None;
    for (name, _) in members {
        if !comes_after(last, name) {
            return false;
        }
        last = Some(name);
    }
    true
}
