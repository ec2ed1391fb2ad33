//! Laws of the definitions that the contracts cite: functions that do nothing, whose contracts are
//! the laws.

pub mod descriptor_of;
pub mod listing;
