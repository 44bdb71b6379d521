// What is kept, to read.
ghost use Rattle.std.specs.Prelude.{◌≡◌, length, map};
ghost use Rattle.room.specs.Items.{items};
ghost use Rattle.lexicon.specs.Held.{kind_of};
ghost use Rattle.store.specs.State.{no_entry_number, placed, traced};
ghost use Rattle.store.specs.View.{view};

use crate::record::Entry;
use crate::refusals::NoEntry;
use crate::store::Store;
use lexicon::Lexicon;
use shelf::{Listed, Noted, Shelf};

impl NoEntry {
    pub fn number(self) -> u8
        ensures { result ≡ no_entry_number }
    {
        14
    }
}

impl Store {
    // The terms by number.
    pub fn terms(&self) -> &Lexicon
        ensures { result.now ≡ self.now.documents.terms }
    {
        &self.documents.terms
    }

    // The lists that were found, one behind the other.
    pub fn triples(&self) -> &[Listed]
        ensures { result.now ≡ (view self.now).triples }
    {
        self.documents.triples.as_slice()
    }

    // Where the list of each entry of the record stands among the triples.
    #[tactic(auto, using(crate::proofs::Recording::view_placed))]
    pub fn noted(&self) -> &[Noted]
        ensures { result.now ≡ placed 0 (view self.now).entries }
    {
        self.noted.as_slice()
    }

    // The documents at hand, as an evaluation reads them.
    pub fn shelf(&self) -> Shelf<'_>
        ensures kinds { result.kinds.now ≡ map kind_of (view self.now).terms }
        ensures noted { result.noted.now ≡ placed 0 (view self.now).entries }
        ensures triples { result.triples.now ≡ (view self.now).triples }
    {
        Shelf {
            kinds: self.documents.terms.kinds(),
            noted: self.noted(),
            triples: self.triples(),
        }
    }

    // The numbers of the terms of the question that entered last, by their place in its text.
    pub fn numbers(&self) -> &[u16]
        ensures { result.now ≡ items self.now.numbers }
    {
        self.numbers.as_slice()
    }

    // How many IRIs were looked up.
    #[tactic(auto, using(crate::proofs::Recording::view_count))]
    pub fn recorded(&self) -> usize
        ensures { result ≡ length (view self.now).entries }
    {
        self.noted.len()
    }

    // The entry of the record at a place, from 0.
    pub fn trace(&self, place: usize) -> Result<Entry, NoEntry>
        ensures { result ≡ traced (view self.now).entries place }
    {
        let noted = self.noted.as_slice().get(place).ok_or(NoEntry)?;
        Ok(Entry::from(*noted))
    }
}
