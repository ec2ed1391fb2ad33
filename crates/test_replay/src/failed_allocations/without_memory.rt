//! Calls that allocate nothing, while each allocation would fail.

pub mod made;
mod texts;
mod values;

use crate::case_error::CaseError;
use crate::failed_allocations::outcome::Outcome;
use crate::failed_allocations::without_memory::made::Made;
use std::alloc::Global;

/// Each call returns the right result, whether allocations fail or not.
pub fn call_all(alloc: Global) -> Result<Outcome, CaseError> {
    let made = Made::new(alloc)?;
    let was_out_of_memory = is_out_of_memory(alloc);
    let read = read_and_look_up(alloc, &made);
    let taken_apart = values::take_apart(alloc, made);
    read?;
    taken_apart?;
    if was_out_of_memory && is_out_of_memory(alloc) {
        Ok(Outcome::ReturnedWithoutMemory)
    } else {
        Ok(Outcome::Returned)
    }
}

fn read_and_look_up(alloc: Global, made: &Made) -> Result<(), CaseError> {
    texts::read()?;
    values::look_up(alloc, made)
}

/// Returns whether an allocation fails now.
fn is_out_of_memory(alloc: Global) -> bool {
    Vec::<u64>::with_capacity(alloc, 1).is_err()
}
