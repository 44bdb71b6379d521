// The memory of a lexicon, reserved once.
ghost use Rattle.std.specs.Prelude.{◌≡◌, [], IfOk};
ghost use Rattle.lexicon.specs.Held.{held};

use crate::lexicon::Lexicon;
use room::Room;
use std::alloc::{AllocError, Global};

impl Lexicon {
    // No terms.
    pub fn reserve(heap: Global) -> Result<Lexicon, AllocError>
        ensures { IfOk result (λ l. held l ≡ []) }
    {
        Ok(Lexicon {
            text: Room::reserve(heap)?,
            kinds: Room::reserve(heap)?,
            parts: Room::reserve(heap)?,
        })
    }
}
