// Terms and their numbers.
ghost use Rattle.std.specs.Prelude.{◌≡◌, ◌<◌, map, length, get_or};
ghost use Rattle.room.specs.Items.{items};
ghost use Rattle.lexicon.specs.Numbering.{bytes_of, number_of, is_term, term as the, term_at, tell, told_number};
ghost use Rattle.lexicon.specs.Parts.{no_term};
ghost use Rattle.lexicon.specs.Held.{held, kind_of};

use crate::lexicon::Lexicon;
use terms::Kind;

impl Lexicon {
    // How many terms there are.
    #[tactic(auto, using(crate::proofs::Holding::held_count))]
    pub fn count(&self) -> usize
        ensures { result ≡ length (held self.now) }
    {
        self.kinds.len()
    }

    // How many bytes they have together, without marks.
    #[tactic(auto, using(crate::proofs::Holding::held_bytes))]
    pub fn bytes(&self) -> usize
        ensures { result ≡ bytes_of (held self.now) }
    {
        self.text.len()
    }

    // The kinds of the terms, in the order of their numbers.
    #[tactic(auto, using(crate::proofs::Holding::held_kinds))]
    pub fn kinds(&self) -> &[Kind]
        ensures { result.now ≡ map kind_of (held self.now) }
    {
        self.kinds.as_slice()
    }

    fn bytes_at(&self, place: usize) -> &[u8]
        requires { place < length (items self.now.kinds) }
        ensures { result.now ≡ (get_or (held self.now) place no_term).bytes }
    {
        let part = self.parts.as_slice()[place];
        let end = part.start + part.size;
        &self.text.as_slice()[part.start..end]
    }

    // The term with a number.
    pub fn term(&self, number: u16) -> Option<(Kind, &[u8])>
        ensures { tell (λ x. the x.0 x.1.now) result ≡ term_at (held self.now) number }
    {
        let place = (number as usize).checked_sub(1)?;
        let kind = self.kinds.as_slice().get(place)?;
        Some((*kind, self.bytes_at(place)))
    }

    fn is_term(&self, number: u16, kind: Kind, bytes: &[u8]) -> bool
        ensures { result ≡ is_term (term_at (held self.now) number) (the kind bytes.now) }
    {
        self.term(number)
            .is_some_and(|(k, x)| k == kind && x == bytes)
    }

    // The number of a term, if it is there.
    #[tactic(auto, using(crate::proofs::Holding::held_few))]
    pub fn number(&self, kind: Kind, bytes: &[u8]) -> Option<u16>
        ensures { result ≡ told_number (number_of (held self.now) (the kind bytes.now)) }
    {
        let end = self.count() as u16 + 1;
        (1..end).find(|number| self.is_term(*number, kind, bytes))
    }
}
