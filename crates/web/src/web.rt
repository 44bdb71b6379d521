// The interface that every make of Web keeps, with the Web's meaning and the laws of it.
ghost use Rattle.std.specs.Prelude.{◌≡◌, ℕ, List};
ghost use Rattle.web.specs.Answers.{answer, tells, leaves};
ghost use Rattle.web.specs.Laws.{Lawful};
ghost use Rattle.web.specs.Meaning.{Looked, Mark, cell};

use crate::answers::Written;
use terms::Unwritten;

// Why an address cannot be read. A make's own cause may say more than the two numbers that every cause tells.
pub trait Cause {
    ghost mark: { Self → Mark };

    fn code(&self) -> u64
        ensures { result ≡ (mark self.now).code };

    fn place(&self) -> u64
        ensures { result ≡ (mark self.now).place };
}

pub trait Web {
    type Cause: Cause + Drop;

    // What each IRI is: found with a list of triples, absent, or broken with a cause.
    ghost meaning: { Self → List ℕ → Looked Self.Cause };

    // The length of the list that is found, `None` for absent, or the cause.
    fn lookup(&self, iri: &[u8]) -> Result<Option<usize>, Self::Cause>
        ensures { result ≡ answer (meaning self.now iri.now) };

    // Writes one term at the buffer's front: of the triple at a place from 0 the part 1 (subject), 2 (predicate) or 3 (object). A part is a number, since
    // any other is refused too: a narrower type would ask more of callers.
    fn read(&self, iri: &[u8], place: usize, part: u8, out: &mut [u8]) -> Result<Written, Unwritten>
        ensures answer { result ≡ tells (cell (meaning self.now iri.now) place part) out.old }
        ensures buffer { out.new ≡ leaves (cell (meaning self.now iri.now) place part) out.old };

    // A law: lists are within the limit and their terms lawful, and bytes that are no IRI are absent.
    ghost lawful: { (w : Self) (iri : List ℕ) → Lawful iri (meaning w iri) };
}
