// What the record of a session says.
ghost use Rattle.std.specs.Prelude.{◌≡◌};

use shelf::{Mark, Noted};

// An IRI that was looked up, by its number.
#[derive(Clone, Copy)]
pub struct Entry {
    pub iri: u16,
    pub mark: Mark,
}

impl From<Noted> for Entry {
    ghost from_gives = { λ n e. e ≡ record { iri = n.iri; mark = n.mark } };

    fn from(noted: Noted) -> Entry {
        Entry {
            iri: noted.iri,
            mark: noted.mark,
        }
    }
}
