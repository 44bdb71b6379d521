// Terms by number, in memory that is reserved when the lexicon is made.
ghost use Rattle.std.specs.Prelude.{◌≡◌, ℕ, ◌<◌, length, take};
ghost use Rattle.room.specs.Items.{items};
ghost use Rattle.lexicon.specs.Parts.{part_at, sizes};

use crate::part::Part;
use room::Room;
use terms::Kind;

// Term n has its kind and its part at n - 1. The parts lie one behind the other and are the whole text.
// Kinds stand apart from parts, since they are lent as one slice, to whoever reads no bytes.
#[derive(Drop)]
pub struct Lexicon {
    pub(crate) text: Room<u8, 32768>,
    pub(crate) kinds: Room<Kind, 1024>,
    pub(crate) parts: Room<Part, 1024>,
    ghost paired: { length (items parts) ≡ length (items kinds) },
    ghost starts: { ((k : ℕ) → k < length (items parts) → (part_at (items parts) k).start ≡ sizes (take k (items parts))) },
    ghost whole: { sizes (items parts) ≡ length (items text) },
}
