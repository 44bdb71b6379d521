// What a session keeps beside its waiting rows, in memory that is reserved when the store is made.
ghost use Rattle.std.specs.Prelude.{◌≡◌, ℕ, ◌<◌, length, take};
ghost use Rattle.room.specs.Items.{items};
ghost use Rattle.store.specs.Places.{counts, noted_at};

use crate::documents::Documents;
use room::Room;
use shelf::Noted;

#[derive(Drop)]
pub struct Store {
    pub(crate) documents: Documents,
    // The record: an IRI with what came of looking it up, and where its list stands.
    pub(crate) noted: Room<Noted, 256>,
    // The numbers of the terms of the question at hand, by their place in its text. Apart from the question, since they are this store's own.
    pub(crate) numbers: Room<u16, 2048>,
    ghost firsts: { ((k : ℕ) → k < length (items noted) → (noted_at (items noted) k).first ≡ counts (take k (items noted))) },
    ghost whole: { counts (items noted) ≡ length (items documents.triples) },
}
