/// The distance of the offsets whose values are held in a table. The values at the offsets between are found
/// from the next one that is held.
pub const STRIDE: usize = 32;
