// The pair keeps the meaning that its two Webs give it, whatever their makes.
ghost use Rattle.web.specs.Pairs.{both, either_mark};
ghost use Rattle.web.specs.Paired.{pair_lawful};

use crate::answers::Written;
use crate::pair::{Pair, PairCause};
use crate::web::{Cause, Web};
use terms::Unwritten;

impl<A: Cause, B: Cause> Cause for PairCause<A, B> {
    ghost mark = { either_mark A.Cause.mark B.Cause.mark };

    fn code(&self) -> u64 {
        match self {
            PairCause::First(cause) => cause.code(),
            PairCause::Second(cause) => cause.code(),
        }
    }

    fn place(&self) -> u64 {
        match self {
            PairCause::First(cause) => cause.place(),
            PairCause::Second(cause) => cause.place(),
        }
    }
}

impl<A: Web, B: Web> Web for Pair<A, B> {
    type Cause = PairCause<A::Cause, B::Cause>;

    ghost meaning = { λ p iri. both (A.Web.meaning p.first iri) (B.Web.meaning p.second iri) };

    ghost lawful = { λ p iri. pair_lawful (A.Web.lawful p.first iri) (B.Web.lawful p.second iri) };

    fn lookup(&self, iri: &[u8]) -> Result<Option<usize>, PairCause<A::Cause, B::Cause>> {
        // Arms, since `map_err(PairCause::First)` gets no proof yet: its result names the other cause's type, which nothing that it takes does.
        match self.first.lookup(iri) {
            Ok(None) => match self.second.lookup(iri) {
                Ok(found) => Ok(found),
                Err(cause) => Err(PairCause::Second(cause)),
            },
            Ok(found) => Ok(found),
            Err(cause) => Err(PairCause::First(cause)),
        }
    }

    fn read(
        &self,
        iri: &[u8],
        place: usize,
        part: u8,
        out: &mut [u8],
    ) -> Result<Written, Unwritten> {
        if let Ok(None) = self.first.lookup(iri) {
            self.second.read(iri, place, part, out)
        } else {
            self.first.read(iri, place, part, out)
        }
    }
}
