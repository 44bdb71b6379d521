// Rows taken, one by one.
ghost use Rattle.std.specs.Prelude.{◌≡◌, map, length};
ghost use Rattle.waiting.specs.Waits.{told, waits, Takes};

use crate::waiting::Waiting;
use tables::Entry;

// No row waits to be taken.
#[derive(Clone, Copy)]
pub struct NothingWaits;

impl NothingWaits {
    pub fn number(&self) -> u8
        ensures { result ≡ 13 }
    {
        13
    }
}

impl Waiting {
    // Those that still wait, in their order.
    pub fn entries(&self) -> &[Entry]
        ensures { map told result.now ≡ waits self.now }
    {
        &self.entries.as_slice()[self.taken..]
    }

    pub fn len(&self) -> usize
        ensures { result ≡ length (waits self.now) }
    {
        self.entries.len() - self.taken
    }

    // The first of those that wait, with its weight. It waits no more.
    pub fn take(&mut self) -> Result<Entry, NothingWaits>
        ensures { Takes (waits self.old) result (waits self.new) }
    {
        let first = self.entries().first().copied().ok_or(NothingWaits)?;
        self.taken += 1;
        Ok(first)
    }
}
