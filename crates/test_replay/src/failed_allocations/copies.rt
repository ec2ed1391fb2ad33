//! `try_clone` of values that own memory.

use crate::case_error::CaseError;
use crate::failed_allocations::outcome::Outcome;
use crate::failed_allocations::without_memory::made::Made;
use deno_graph_source::values::TryClone;
use std::alloc::{AllocError, Global};

/// No value changes, and each copy is equal to its value.
pub fn copy_all(alloc: Global) -> Result<Outcome, CaseError> {
    let made = Made::new(alloc)?;
    copy_made(alloc, &made)
}

fn copy_made(alloc: Global, made: &Made) -> Result<Outcome, CaseError> {
    let twin = Made::new(alloc)?;
    copy_parts(alloc, made, &twin)
}

/// Takes the values by reference, so that no `?` drops them.
fn copy_parts(alloc: Global, made: &Made, twin: &Made) -> Result<Outcome, CaseError> {
    let outcomes = [
        copy(alloc, made.source.program(), twin.source.program())?,
        copy(alloc, made.source.comments(), twin.source.comments())?,
        copy(alloc, &made.info, &twin.info)?,
        copy(alloc, &made.strings.surrogate, &twin.strings.surrogate)?,
    ];
    if outcomes.contains(&Outcome::OutOfMemory) {
        Ok(Outcome::OutOfMemory)
    } else {
        Ok(Outcome::Returned)
    }
}

/// Copies a value, and compares the copy and the value with an equal value, `twin`.
fn copy<T: TryClone + PartialEq + Drop>(
    alloc: Global,
    value: &T,
    twin: &T,
) -> Result<Outcome, CaseError> {
    let copied = value.try_clone(alloc);
    let outcome = outcome_of(copied, twin)?;
    outcome.provided(value == twin, "the value changed")
}

fn outcome_of<T: PartialEq + Drop>(
    copied: Result<T, AllocError>,
    twin: &T,
) -> Result<Outcome, CaseError> {
    match copied {
        Ok(copy) => Outcome::Returned.provided(copy == *twin, "the copy differs from the value"),
        Err(_) => Ok(Outcome::OutOfMemory),
    }
}
