// The memory of a store, reserved once.
ghost use Rattle.std.specs.Prelude.{◌≡◌, IfOk};
ghost use Rattle.store.specs.State.{fresh};
ghost use Rattle.store.specs.View.{view};

use crate::documents::Documents;
use crate::store::Store;
use lexicon::Lexicon;
use room::Room;
use std::alloc::{AllocError, Global};

impl Store {
    // Nothing is kept yet. No later call reserves memory.
    pub fn new(heap: Global) -> Result<Store, AllocError>
        ensures { IfOk result (λ s. view s ≡ fresh) }
    {
        Ok(Store {
            documents: Documents {
                terms: Lexicon::reserve(heap)?,
                triples: Room::reserve(heap)?,
            },
            noted: Room::reserve(heap)?,
            numbers: Room::reserve(heap)?,
        })
    }
}
