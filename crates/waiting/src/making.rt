// The memory for rows that wait, reserved once.
ghost use Rattle.std.specs.Prelude.{◌≡◌, [], IfOk};
ghost use Rattle.waiting.specs.Waits.{waits};

use crate::waiting::Waiting;
use room::Room;
use std::alloc::{AllocError, Global};

impl Waiting {
    // Nothing waits. Only this call can fail for want of memory.
    pub fn new(heap: Global) -> Result<Waiting, AllocError>
        ensures { IfOk result (λ w. waits w ≡ []) }
    {
        let entries = Room::reserve(heap)?;
        Ok(Waiting { entries, taken: 0 })
    }
}
