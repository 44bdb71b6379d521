// The page file as a Web.
ghost use Rattle.std.specs.Prelude.{◌≡◌, ◌<◌, length, MatchOption, MatchResult};
ghost use Rattle.std.specs.Option.{option_map};
ghost use Rattle.lines.specs.Steps.{triple_of};
ghost use Rattle.pages.specs.Limits.{Made, too_long_number};
ghost use Rattle.pages.specs.Lawful.{pages_lawful};
ghost use Rattle.pages.specs.Pages.{address as address_of, web_meaning};
ghost use Rattle.pages.specs.Steps.{Holds};
ghost use Rattle.web.specs.Meaning.{absent, broken, listed, triples};

use crate::cause::PageCause;
use crate::pages::{Pages, TooLong};
use crate::scan::{Seen, scan};
use lines::{Stated, run_before};
use terms::{Kind, Unwritten, is_iri};
use web::{Web, Written, give};

impl TooLong {
    pub fn number(self) -> u8
        ensures { result ≡ too_long_number }
    {
        16
    }
}

impl<'a> Pages<'a> {
    pub fn new(file: &'a [u8]) -> Result<Pages<'a>, TooLong>
        ensures { MatchResult result (λ p. Made file.now p.file.now) (λ e. (65536 < length file.now) × (e.length ≡ length file.now)) }
    {
        if file.len() > 65536 {
            return Err(TooLong { length: file.len() });
        }
        Ok(Pages { file })
    }

    // What the file holds at an IRI.
    fn seen(&self, iri: &[u8], place: usize) -> Result<Option<Seen<'a>>, PageCause>
        ensures { MatchResult result (λ o. MatchOption o (web_meaning self.now.file.now iri.now ≡ absent) (λ s. Holds (web_meaning self.now.file.now iri.now) place s.count s.stated)) (λ e. web_meaning self.now.file.now iri.now ≡ broken e) }
    {
        if !is_iri(iri) {
            return Ok(None);
        }
        scan(self.file, address(iri), place)
    }

    // The triple at a place of the list that is found.
    fn stated(&self, iri: &[u8], place: usize) -> Option<Stated<'a>>
        ensures { option_map triple_of result ≡ listed place (triples (web_meaning self.now.file.now iri.now)) }
    {
        self.seen(iri, place).ok()??.stated
    }
}

// The part of an IRI that names a page: what stands before its first `#`.
fn address(iri: &[u8]) -> &[u8]
    ensures { result.now ≡ address_of iri.now }
{
    &iri[..run_before(iri, b'#')]
}

impl Web for Pages<'_> {
    type Cause = PageCause;

    ghost meaning = { λ w iri. web_meaning w.file.now iri };

    ghost lawful = { λ w iri. pages_lawful w.file.now iri };

    fn lookup(&self, iri: &[u8]) -> Result<Option<usize>, PageCause> {
        Ok(self.seen(iri, 0)?.map(|seen| seen.count))
    }

    fn read(
        &self,
        iri: &[u8],
        place: usize,
        part: u8,
        out: &mut [u8],
    ) -> Result<Written, Unwritten> {
        let stated = self.stated(iri, place).ok_or(Unwritten::NoSuch)?;
        match part {
            1 => give(Kind::Iri, stated.subject, out),
            2 => give(Kind::Iri, stated.predicate, out),
            3 => give(stated.kind, stated.object, out),
            _ => Err(Unwritten::NoSuch),
        }
    }
}
