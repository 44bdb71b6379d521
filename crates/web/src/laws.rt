// Agreement of Webs is settled by what they tell.
ghost use Rattle.std.specs.Prelude.{◌≡◌, ℕ, ◌≤◌, List, length, Some};
ghost use Rattle.terms.specs.Terms.{Term};
ghost use Rattle.web.specs.Meaning.{cell};
ghost use Rattle.web.specs.Agreement.{Agree, AgreesWithItself, AgreesBothWays, AgreesThrough, AgreesByTelling, AnswerAlike, PairsAgree, tells_of};
ghost use Rattle.web.specs.Pairs.{both, either_mark, or_told};

use crate::pair::Pair;
use crate::web::Web;

// Agreement on an IRI is an equivalence of what Webs tell, and pairs keep it.
pub fn agreement_is_lawful()
    ensures itself { AgreesWithItself }
    ensures ways { AgreesBothWays }
    ensures through { AgreesThrough }
    ensures telling { AgreesByTelling }
    ensures pairs { PairsAgree }
{}

// Agreement of Webs of any makes, each by its meaning and its marks, is an equivalence too. Webs that agree on an IRI answer every call on it alike.
pub fn webs_agree<U: Web, V: Web, W: Web>()
    ensures itself { (w : W) (iri : List ℕ) → Agree (tells_of W.Cause.mark W.Web.meaning w) (tells_of W.Cause.mark W.Web.meaning w) iri }
    ensures ways { (v : V) (w : W) (iri : List ℕ) → Agree (tells_of V.Cause.mark V.Web.meaning v) (tells_of W.Cause.mark W.Web.meaning w) iri → Agree (tells_of W.Cause.mark W.Web.meaning w) (tells_of V.Cause.mark V.Web.meaning v) iri }
    ensures through { (u : U) (v : V) (w : W) (iri : List ℕ) → Agree (tells_of U.Cause.mark U.Web.meaning u) (tells_of V.Cause.mark V.Web.meaning v) iri → Agree (tells_of V.Cause.mark V.Web.meaning v) (tells_of W.Cause.mark W.Web.meaning w) iri → Agree (tells_of U.Cause.mark U.Web.meaning u) (tells_of W.Cause.mark W.Web.meaning w) iri }
    ensures answers { (v : V) (w : W) (iri : List ℕ) → Agree (tells_of V.Cause.mark V.Web.meaning v) (tells_of W.Cause.mark W.Web.meaning w) iri → AnswerAlike V.Cause.mark W.Cause.mark (V.Web.meaning v iri) (W.Web.meaning w iri) }
{}

// A pair tells by what its two Webs tell.
pub fn pairs_tell<V: Web, W: Web>()
    ensures { (v : V) (w : W) (iri : List ℕ) → tells_of (either_mark V.Cause.mark W.Cause.mark) (λ (p : Pair V W) (i : List ℕ). both (V.Web.meaning p.first i) (W.Web.meaning p.second i)) (record { first = v; second = w }) iri ≡ or_told (tells_of V.Cause.mark V.Web.meaning v iri) (tells_of W.Cause.mark W.Web.meaning w iri) }
{}

// Whatever the make, a term that a read names has at most 128 bytes, so a buffer of 128 bytes is never too short.
pub fn terms_fit<W: Web>()
    ensures { (w : W) (iri : List ℕ) (place part : ℕ) (t : Term) → cell (W.Web.meaning w iri) place part ≡ Some t → length t.bytes ≤ 128 }
{}
