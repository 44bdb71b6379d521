// The documents that were found.
use lexicon::Lexicon;
use room::Room;
use shelf::Listed;

#[derive(Drop)]
pub struct Documents {
    pub(crate) terms: Lexicon,
    // The lists of the documents, one behind the other.
    pub(crate) triples: Room<Listed, 4096>,
}
