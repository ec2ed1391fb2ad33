//! What the conversion changes in a dependency.

ghost use Rattle.std.specs.Prelude.{IfOk, IfErr};
ghost use Rattle.deno_graph_json.specs.Data.{data_of};
ghost use Rattle.deno_graph_info.specs.Change.{changed};
ghost use Rattle.deno_graph_info.specs.Conversion.{DependencyOverflows, IsConvertedDependency};
ghost use Rattle.deno_graph_info.specs.internal.ConvertFault.{IsColumnFault};

use crate::analysis::SpecifierWithRange;
use crate::conversion::comment::read_comments;
use crate::conversion::fault::ConvertFault;
use crate::conversion::types::types_named;
use deno_graph_json::Element;
use deno_graph_pragmas::finders::laws::captures_are_unique;
use std::alloc::Global;

/// What the conversion changes in a dependency.
#[derive(Drop)]
pub enum Change {
    /// Nothing: it has no array of readable comments.
    Nothing,
    /// Its comments go. The types that they name, if any, come.
    Comments(Option<SpecifierWithRange>),
}

/// Returns what the conversion changes in a dependency, or `ColumnOverflow` if the types that its comments
/// name would end beyond the largest column, so that it can't be converted.
pub fn change_of(alloc: Global, dependency: Element<'_>) -> Result<Change, ConvertFault>
    ensures ok { IfOk result (λ change. IsConvertedDependency (data_of dependency.entry)
        (changed change (data_of dependency.entry))) }
    ensures fits { IfOk result (λ _. ¬ DependencyOverflows (data_of dependency.entry)) }
    ensures err { IfErr result (IsColumnFault (DependencyOverflows (data_of dependency.entry))) }
{
    captures_are_unique();
    match read_comments(alloc, dependency)? {
        Some(comments) => Ok(Change::Comments(types_named(alloc, &comments)?)),
        None => Ok(Change::Nothing),
    }
}
