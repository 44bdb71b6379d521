// Places in the record.
ghost use Rattle.std.specs.Prelude.{◌≡◌, ◌==◌, ◌&&◌, position};
ghost use Rattle.needs.specs.Needs.{first_where, is_of, is_spoilt, spoilt, wanted_at};
ghost use Rattle.store.specs.View.{view};

use shelf::{Mark, Noted};
use store::Store;

fn place_of(noted: &[Noted], iri: u16) -> Option<usize>
    ensures { result ≡ position (λ n. n.iri == iri) noted.now }
{
    noted.iter().position(|entry| entry.iri == iri)
}

// The record's place of an IRI, the first if it has several.
pub fn entry_of(store: &Store, iri: u16) -> Option<usize>
    ensures { result ≡ first_where (is_of iri) (view store.now).entries }
{
    place_of(store.noted(), iri)
}

pub(crate) fn is_wanted(wanted: &[bool], term: u16) -> bool
    ensures { result ≡ wanted_at wanted.now term }
{
    wanted.get(term as usize).copied().unwrap_or(false)
}

fn is_spoilt(mark: Mark) -> bool
    ensures { result ≡ spoilt mark }
{
    matches!(mark, Mark::Broken(_, _) | Mark::Unfit)
}

fn place_spoilt(noted: &[Noted], wanted: &[bool]) -> Option<usize>
    ensures { result ≡ position (λ n. wanted_at wanted.now n.iri && spoilt n.mark) noted.now }
{
    noted.iter().position(|entry| is_wanted(wanted, entry.iri) && is_spoilt(entry.mark))
}

// The record's first place whose IRI is wanted, and is broken or unfit.
pub fn first_spoilt(store: &Store, wanted: &[bool]) -> Option<usize>
    ensures { result ≡ first_where (is_spoilt wanted.now) (view store.now).entries }
{
    place_spoilt(store.noted(), wanted)
}
