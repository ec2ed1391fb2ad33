use deno_graph_source::values::TryClone;
use std::process::Abort;

/// Returns whether a copy is equal to the value.
pub fn is_copied<T: TryClone + PartialEq + Drop>(
    rt: &(impl AllocGlobal + Abort),
    value: &T,
) -> bool {
    value.try_clone(rt.alloc()).expect(rt, "memory") == *value
}
