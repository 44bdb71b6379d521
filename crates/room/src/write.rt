// A room made, filled and emptied. Only making one asks for memory.
ghost use Rattle.std.specs.Prelude.{◌≡◌, ◌+◌, ◌<◌, ◌≤◌, ◌↔◌, [], ◌∷◌, ◌++◌, length, take, set as set_at, IfOk, IsOk, OnErr};
ghost use Rattle.std.specs.List.{insert as insert_at};
ghost use Rattle.room.specs.Items.{items};

use crate::full::Full;
use crate::room::Room;
use std::alloc::{AllocError, Global};

impl<T, const N: usize> Room<T, N> {
    pub fn reserve(heap: Global) -> Result<Room<T, N>, AllocError>
        ensures { IfOk result (λ r. items r ≡ []) }
    {
        let items = Vec::with_capacity(heap, N)?;
        Ok(Room { items })
    }

    // Puts an item behind the others.
    pub fn push(&mut self, item: T) -> Result<(), Full>
    where
        T: Drop,
        ensures answer { IsOk result ↔ (length (items self.old) < N) }
        ensures taken { length (items self.old) < N → items self.new ≡ items self.old ++ item ∷ [] }
        ensures full { OnErr result (items self.new ≡ items self.old) }
    {
        if self.items.len() == N {
            return Err(Full);
        }
        self.items.push_reserved(item);
        Ok(())
    }

    // Puts an item before the one at a place, which makes way with all behind it; past the last one it stands behind all.
    pub fn insert(&mut self, place: usize, item: T) -> Result<(), Full>
    where
        T: Drop,
        ensures answer { IsOk result ↔ (length (items self.old) < N) }
        ensures taken { length (items self.old) < N → items self.new ≡ insert_at (items self.old) place item }
        ensures full { OnErr result (items self.new ≡ items self.old) }
    {
        if self.is_full() {
            return Err(Full);
        }
        let place = place.min(self.items.len());
        let _ = self.items.insert(place, item);
        Ok(())
    }

    // Puts an item in the place of another, if one is there.
    pub fn set(&mut self, place: usize, item: T)
    where
        T: Drop,
        ensures { items self.new ≡ set_at (items self.old) place item }
    {
        if let Some(there) = self.items.get_mut(place) {
            *there = item;
        }
    }

    // Keeps so many items, the first ones.
    pub fn truncate(&mut self, count: usize)
    where
        T: Drop,
        ensures { items self.new ≡ take count (items self.old) }
    {
        self.items.truncate(count);
    }

    pub fn clear(&mut self)
    where
        T: Drop,
        ensures { items self.new ≡ [] }
    {
        self.items.clear();
    }
}

impl<T: Copy, const N: usize> Room<T, N> {
    // Puts all of these behind the others, or none.
    pub fn extend_from_slice(&mut self, more: &[T]) -> Result<(), Full>
        ensures answer { IsOk result ↔ (length (items self.old) + length more.now ≤ N) }
        ensures taken { length (items self.old) + length more.now ≤ N → items self.new ≡ items self.old ++ more.now }
        ensures full { OnErr result (items self.new ≡ items self.old) }
    {
        if more.len() > N - self.items.len() {
            return Err(Full);
        }
        let _ = self.items.extend_from_slice(more);
        Ok(())
    }
}
