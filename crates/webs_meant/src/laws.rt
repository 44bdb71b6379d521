// What a question means is said over a function that finds a list for each IRI. Every make of Web has such a function, by its meaning.
ghost use Rattle.std.specs.Prelude.{◌≡◌};
ghost use Rattle.terms.specs.Terms.{Term};
ghost use Rattle.semantics.specs.Webs.{Found};
ghost use Rattle.web.specs.Agreement.{Agree, tells_of};
ghost use Rattle.webs_meant.specs.Finding.{found_of, LawfulMeaningsAreWebs};

use web::Web;

// A meaning that keeps the laws of Webs, with causes of a type C, is a Web that the laws of questions are about.
pub fn lawful_meanings_are_webs<C>()
    ensures { LawfulMeaningsAreWebs C }
{}

// So every make's is.
pub fn every_web_is_meant<W: Web>()
    ensures { (w : W) → Found (found_of (W.Web.meaning w)) }
{}

// Two Webs of any makes that agree on an IRI find the same list for it.
pub fn agreeing_webs_mean_the_same<V: Web, W: Web>()
    ensures { (v : V) (w : W) (t : Term) → Agree (tells_of V.Cause.mark V.Web.meaning v) (tells_of W.Cause.mark W.Web.meaning w) t.bytes → found_of (V.Web.meaning v) t ≡ found_of (W.Web.meaning w) t }
{}
