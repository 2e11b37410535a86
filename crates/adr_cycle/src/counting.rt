//! Counts as they are told.

ghost use Rattle.std.specs.Prelude.{◌≡◌, IfOk};

use crate::NoMemory;
use std::alloc::AllocError;

/// A count in 32 bits. One that needs more counts as want of memory.
pub fn count(number: usize) -> Result<u32, NoMemory>
    ensures { IfOk result (λ count. count ≡ number) }
{
    match u32::try_from(number) {
        Ok(count) => Ok(count),
        Err(_) => Err(AllocError),
    }
}
