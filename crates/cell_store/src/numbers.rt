//! Numbers that are kept in 32 bits.

ghost use Rattle.std.specs.Prelude.{◌≡◌, ◌^◌, ◌<◌, IfOk, OnOk};

use std::alloc::AllocError;

/// The number in 32 bits. A greater one is answered as want of memory.
pub fn short(number: usize) -> Result<u32, AllocError>
    ensures kept { IfOk result (λ kept. kept ≡ number) }
    ensures fits { OnOk result (number < 2 ^ 32) }
{
    if number > u32::MAX as usize {
        return Err(AllocError);
    }
    Ok(number as u32)
}
