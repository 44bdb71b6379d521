// The bytewise lowest of the IRIs that are missing.
ghost use Rattle.std.specs.Prelude.{◌≡◌, is_some, Some};
ghost use Rattle.lexicon.specs.Numbering.{term_at};
ghost use Rattle.store.specs.Looking.{address_of};
ghost use Rattle.needs.specs.Needs.{lower, lower_of, missing, Lowest};
ghost use Rattle.store.specs.View.{view};

use crate::places::{entry_of, is_wanted};
use store::Store;
use terms::Kind;

fn is_lower(store: &Store, a: u16, b: u16) -> bool
    ensures { result ≡ lower (term_at (view store.now).terms a) (term_at (view store.now).terms b) }
{
    match (store.terms().term(a), store.terms().term(b)) {
        (Some((_, x)), Some((_, y))) => x < y,
        _ => false,
    }
}

fn is_iri(store: &Store, number: u16) -> bool
    ensures { result ≡ is_some (address_of (term_at (view store.now).terms number)) }
{
    matches!(store.terms().term(number), Some((Kind::Iri, _)))
}

#[tactic(auto, unfolding(crate::specs::Needs::missing))]
fn is_missing(store: &Store, wanted: &[bool], number: u16) -> bool
    ensures { result ≡ missing (view store.now) wanted.now number }
{
    is_wanted(wanted, number) && is_iri(store, number) && entry_of(store, number).is_none()
}

// The lower of two that are missing.
fn lower_of(store: &Store, a: u16, b: u16) -> u16
    ensures { result ≡ lower_of (view store.now).terms a (Some b) }
{
    if is_lower(store, a, b) { a } else { b }
}

// The IRI to look up next: of those that are wanted and not in the record, the bytewise lowest.
pub fn lowest_missing(store: &Store, wanted: &[bool]) -> Option<u16>
    ensures { Lowest (view store.now) wanted.now result }
{
    let end = store.terms().count() as u16 + 1;
    (1..end)
        .filter(|number| is_missing(store, wanted, *number))
        .reduce(|lowest, number| lower_of(store, number, lowest))
}
