use pc_rows::VARIABLES;
use std::alloc::AllocError;

/// The most parts that a value has: two bounds for each variable, and one more.
pub const PARTS: usize = 65;

const _: () = prove!(PARTS == 2 * VARIABLES + 1);

/// There is no memory for a value.
#[derive(Clone, Copy, Debug, PartialEq, Eq)]
pub struct NoMemory;

impl From<AllocError> for NoMemory {
    fn from(_e: AllocError) -> NoMemory {
        NoMemory
    }
}
