ghost use Rattle.std.specs.Prelude.{◌≤◌, length};
ghost use Rattle.room.specs.Items.{items};

use room::Room;
use tables::Entry;

// Its memory is reserved when it is made. What was taken stays where it is until other rows wait.
#[derive(Drop)]
pub struct Waiting {
    pub(crate) entries: Room<Entry, 256>,
    pub(crate) taken: usize,
    ghost within: { taken ≤ length (items entries) },
}
