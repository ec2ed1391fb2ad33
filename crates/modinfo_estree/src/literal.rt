//! String literals, each held against the text.

ghost use Rattle.std.specs.Prelude.{◌≡◌, codes, IfOk, Some};
ghost use Rattle.deno_graph_json.specs.ObjectReader.{readable, value_of};
ghost use Rattle.deno_graph_json.specs.Read.Partial.{member_at};
ghost use Rattle.deno_graph_json.specs.Read.Result.{IsReadResult};
ghost use Rattle.modinfo_document.specs.Literal.{reads_string};
ghost use Rattle.modinfo_literals.specs.Value.{is_spelled};
ghost use Rattle.modinfo_estree.specs.Literal as spec;
ghost use Rattle.modinfo_estree.specs.Literal.{if_spelled};

use crate::member::read_range;
use crate::offsets::Offsets;
use crate::required::ReadWith;
use crate::slice::slice_at;
use crate::source::NodeMembers;
use deno_graph_json::{Element, Expected, ReadError};
use deno_graph_source::text::{JsString, SourceRange};
use deno_graph_source::tree::StrLit;
use modinfo_literals::spells;
use std::alloc::{AllocError, Global};

/// Reads a string literal, whose member `value` is its value.
impl<'t> ReadWith<Offsets<'t>> for StrLit {
    ghost reads = { spec.reads_literal };

    #[tactic(auto, using(deno_graph_json::proofs::Reading::reading), unfolding(crate::specs::Literal::reads_literal))]
    fn read_with(
        alloc: Global,
        offsets: &Offsets<'t>,
        value: Element<'_>,
    ) -> Result<StrLit, ReadError> {
        let members = NodeMembers::new(alloc, value)?;
        let range = read_range(offsets, &members)?;
        let found = members.read("value")?;
        let value = if_spelled(alloc, offsets, range, &members, found)?;
        Ok(StrLit { value, range })
    }
}

/// Returns the value of a string literal that was read from its members, if the text may spell the value at
/// the literal's range.
#[tactic(auto, unfolding(crate::specs::Literal::if_spelled))]
pub fn if_spelled(
    alloc: Global,
    offsets: &Offsets<'_>,
    range: SourceRange,
    members: &NodeMembers<'_>,
    value: JsString,
) -> Result<JsString, ReadError>
    requires { member_at reads_string (codes "value") (readable members.now) ≡ Some value }
    ensures { IsReadResult (value_of members.now) (if_spelled offsets.now.text range value) result }
{
    let is_spelled = may_spell(alloc, offsets.text(), range, &value)?;
    if is_spelled {
        Ok(value)
    } else {
        Err(members.member_error("value", Expected::SpelledValue))
    }
}

/// Returns whether a text spells a value at a range, or has no such range.
#[tactic(auto, unfolding(crate::specs::Literal::may_spell))]
fn may_spell(
    alloc: Global,
    text: &str,
    range: SourceRange,
    value: &JsString,
) -> Result<bool, AllocError>
    ensures { IfOk result (λ may. may ≡ spec.may_spell text.now range value.now) }
{
    match slice_at(text, range) {
        Some(slice) => is_spelled(alloc, slice, value),
        None => Ok(true),
    }
}

/// Returns whether a text is a string literal of a value.
fn is_spelled(alloc: Global, slice: &str, value: &JsString) -> Result<bool, AllocError>
    ensures { IfOk result (λ is. is ≡ is_spelled slice.now value.now) }
{
    spells(alloc, slice, value)
}
