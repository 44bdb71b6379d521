// What a lookup adds to what is kept.
ghost use Rattle.std.specs.Prelude.{◌≡◌, ◌+◌, ◌≤◌, List, length, take, is_some, Some};
ghost use Rattle.room.specs.Items.{items};
ghost use Rattle.terms.specs.Terms.{Term};
ghost use Rattle.lexicon.specs.Held.{held};
ghost use Rattle.lexicon.specs.Numbering.{tell, term_at};
ghost use Rattle.web.specs.Agreement.{tells_of};
ghost use Rattle.web.specs.Meaning.{Triple, cell, found, told};
ghost use Rattle.store.specs.Looking.{address_of, looked, looks, unlooked_number, Enters, Fetched, Gathering};
ghost use Rattle.store.specs.View.{view};

use crate::documents::Documents;
use crate::refusals::Unlooked;
use crate::store::Store;
use arrayvec::ArrayVec;
use lexicon::Lexicon;
use shelf::{Listed, Mark, Noted};
use terms::Kind;
use web::{Cause, Web};

impl Unlooked {
    pub fn number(self) -> u8
        ensures { result ≡ unlooked_number self }
    {
        self as u8
    }
}

// What a Web has at an IRI.
#[derive(Drop)]
struct Document<'a, W> {
    web: &'a W,
    iri: &'a [u8],
}

impl<W: Web> Document<'_, W> {
    // One part of a listed triple enters, by way of a buffer that is as long as a term may be, since nothing is allocated.
    fn enter_part(&self, place: usize, part: u8, terms: &mut Lexicon) -> Option<u16>
        ensures { (t : Term) → cell (W.Web.meaning self.now.web.now self.now.iri.now) place part ≡ Some t → length t.bytes ≤ 128 → Enters t (held terms.old) result (held terms.new) }
    {
        let mut out = [0u8; 128];
        let written = self.web.read(self.iri, place, part, &mut out).ok()?;
        terms.enter(written.kind, &out[..written.length])
    }
}

impl Documents {
    // The triples of a list enter in order, by place, as a Web tells them, until one does not fit.
    fn gather<W: Web>(&mut self, document: &Document<W>, count: usize) -> Option<()>
        requires { length (items self.old.triples) + count ≤ 4096 }
        ensures { (xs : List Triple) → W.Web.meaning document.now.web.now document.now.iri.now ≡ found xs → count ≡ length xs → Gathering (held self.old.terms) (items self.old.triples) xs (is_some result) (held self.new.terms) (items self.new.triples) }
    {
        for place in 0..count {
            let subject = document.enter_part(place, 1, &mut self.terms)?;
            let predicate = document.enter_part(place, 2, &mut self.terms)?;
            let object = document.enter_part(place, 3, &mut self.terms)?;
            let _ = self.triples.push(Listed {
                subject,
                predicate,
                object,
            });
        }
        Some(())
    }

    // Looks an IRI up, and keeps what its document lists if all of it fits.
    fn fetch<W: Web>(&mut self, document: &Document<W>) -> Mark
        ensures { Fetched (told W.Cause.mark (W.Web.meaning document.now.web.now document.now.iri.now)) (held self.old.terms) (items self.old.triples) result (held self.new.terms) (items self.new.triples) }
    {
        match document.web.lookup(document.iri) {
            Ok(Some(count)) => {
                if count > self.triples.free() {
                    return Mark::Unfit;
                }
                let known = self.terms.count();
                let first = self.triples.len();
                if self.gather(document, count).is_some() {
                    return Mark::Found(count);
                }
                self.terms.cut(known);
                self.triples.truncate(first);
                Mark::Unfit
            }
            Ok(None) => Mark::Absent,
            Err(cause) => Mark::Broken(cause.code(), cause.place()),
        }
    }
}

// Copies bytes, of more than 129 the first: an IRI has 128 at most, so 129 show that it is none.
fn copied(bytes: &[u8]) -> ArrayVec<u8, 129>
    ensures { result.items ≡ take 129 bytes.now }
{
    let mut copy = ArrayVec::new();
    let _ = copy.try_extend_from_slice(&bytes[..bytes.len().min(129)]);
    copy
}

// The bytes of the IRI with a number, copied, since terms enter while they are in use.
fn address(terms: &Lexicon, iri: u16) -> Option<ArrayVec<u8, 129>>
    ensures { tell (λ a. a.items) result ≡ tell (take 129) (address_of (term_at (held terms.now) iri)) }
{
    match terms.term(iri)? {
        (Kind::Iri, bytes) => Some(copied(bytes)),
        (Kind::Literal, _) => None,
    }
}

impl Store {
    // Looks up the IRI with a number, and keeps what the Web tells of it.
    pub fn look<W: Web>(&mut self, web: &W, iri: u16) -> Result<(), Unlooked>
        ensures answer { result ≡ looks iri (view self.old) }
        ensures after { view self.new ≡ looked (tells_of W.Cause.mark W.Web.meaning web.now) iri (view self.old) }
        ensures numbers { self.new.numbers ≡ self.old.numbers }
    {
        if self.noted.is_full() {
            return Err(Unlooked::Full);
        }
        let address = address(&self.documents.terms, iri).ok_or(Unlooked::NoSuch)?;
        let first = self.documents.triples.len();
        let document = Document {
            web,
            iri: address.as_slice(),
        };
        let mark = self.documents.fetch(&document);
        let _ = self.noted.push(Noted { iri, mark, first });
        Ok(())
    }
}
