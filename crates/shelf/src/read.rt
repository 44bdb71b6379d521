// What the documents at hand say.
ghost use Rattle.std.specs.Prelude.{◌≡◌, ◌==◌, take, drop, find, option_copied};
ghost use Rattle.shelf.specs.Contexts.{iri_among, listed_in, listed_on, on_shelf, size};

use crate::items::{Listed, Mark, Noted};
use crate::shelf::Shelf;
use terms::Kind;

impl Mark {
    // How many triples are kept.
    pub fn size(self) -> usize
        ensures { result ≡ size self }
    {
        match self {
            Mark::Found(count) => count,
            Mark::Absent | Mark::Broken(_, _) | Mark::Unfit => 0,
        }
    }
}

fn is_iri(kinds: &[Kind], term: u16) -> bool
    ensures { result ≡ iri_among kinds.now term }
{
    match (term as usize).checked_sub(1) {
        Some(place) => matches!(kinds.get(place), Some(Kind::Iri)),
        None => false,
    }
}

// So many triples from the first on, as far as there are any.
fn some_of(triples: &[Listed], first: usize, count: usize) -> &[Listed]
    ensures { result.now ≡ take count (drop first triples.now) }
{
    let rest = &triples[first.min(triples.len())..];
    &rest[..count.min(rest.len())]
}

fn entry_of(noted: &[Noted], term: u16) -> Option<&Noted>
    ensures { option_copied result ≡ find (λ e. e.iri == term) noted.now }
{
    noted.iter().find(|entry| entry.iri == term)
}

// What the record's first entry for an IRI lists.
fn listed_in<'a>(noted: &[Noted], triples: &'a [Listed], term: u16) -> &'a [Listed]
    ensures { result.now ≡ listed_in noted.now triples.now term }
{
    match entry_of(noted, term) {
        Some(entry) => some_of(triples, entry.first, entry.mark.size()),
        None => &[],
    }
}

impl<'a> Shelf<'a> {
    pub fn is_iri(&self, term: u16) -> bool
        ensures { result ≡ on_shelf self.now term }
    {
        is_iri(self.kinds, term)
    }

    // The triples of the document that is at hand for an IRI; of a literal there is none.
    pub fn listed(&self, term: u16) -> &'a [Listed]
        ensures { result.now ≡ listed_on self.now term }
    {
        if self.is_iri(term) {
            listed_in(self.noted, self.triples, term)
        } else {
            &[]
        }
    }
}
