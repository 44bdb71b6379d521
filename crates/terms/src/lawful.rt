// Which bytes are an IRI.
ghost use Rattle.std.specs.Prelude.{◌≡◌};
ghost use Rattle.std.specs.List.{list_all};
ghost use Rattle.terms.specs.Bytes.{iri_byte};
ghost use Rattle.terms.specs.Lawful.{is_iri};

use crate::bytes::is_iri_byte;
use crate::kind::Kind;

fn are_iri_bytes(bytes: &[u8]) -> bool
    ensures { result ≡ list_all iri_byte bytes.now }
{
    bytes.iter().all(|b| is_iri_byte(*b))
}

pub fn is_iri(bytes: &[u8]) -> bool
    ensures { result ≡ is_iri bytes.now }
{
    Kind::Iri.fits(bytes.len()) && are_iri_bytes(bytes)
}
