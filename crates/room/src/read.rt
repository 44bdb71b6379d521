// What a room holds, and how much more.
ghost use Rattle.std.specs.Prelude.{◌≡◌, ◌+◌, ◌<◌, length, MatchBool};
ghost use Rattle.room.specs.Items.{items};

use crate::room::Room;

impl<T, const N: usize> Room<T, N> {
    pub fn as_slice(&self) -> &[T]
        ensures { result.now ≡ items self.now }
    {
        self.items.as_slice()
    }

    pub fn len(&self) -> usize
        ensures { result ≡ length (items self.now) }
    {
        self.items.len()
    }

    // How many more it takes.
    pub fn free(&self) -> usize
        ensures { length (items self.now) + result ≡ N }
    {
        N - self.items.len()
    }

    pub fn is_full(&self) -> bool
        ensures { MatchBool result (length (items self.now) ≡ N) (length (items self.now) < N) }
    {
        self.free() == 0
    }
}
