// The terms of a question enter.
ghost use Rattle.std.specs.Prelude.{◌≡◌, map, is_some};
ghost use Rattle.room.specs.Items.{items};
ghost use Rattle.lexicon.specs.Held.{held};
ghost use Rattle.lexicon.specs.Numbering.{number_of};
ghost use Rattle.question.specs.Asking.{asked};
ghost use Rattle.store.specs.Entering.{Entering};
ghost use Rattle.store.specs.State.{entered, enters, numbered, terms_unfit_number};
ghost use Rattle.store.specs.View.{view};

use crate::refusals::TermsUnfit;
use crate::store::Store;
use lexicon::Lexicon;
use question::Question;
use room::Room;

impl TermsUnfit {
    pub fn number(self) -> u8
        ensures { result ≡ terms_unfit_number }
    {
        8
    }
}

// By place, as a question tells its terms. Every place below their number has one.
fn enter_all(terms: &mut Lexicon, question: &Question) -> Option<()>
    ensures { Entering (held terms.old) (asked question.now).terms (is_some result) (held terms.new) }
{
    for place in 0..question.terms() {
        let (kind, bytes) = question.term(place)?;
        terms.enter(kind, bytes)?;
    }
    Some(())
}

// Counts the places as above. A question has no more terms than there is room for. 0 is the number of no term, as in the format of a
// row (crates/rows/src/row.rt).
fn number_all(terms: &Lexicon, question: &Question, numbers: &mut Room<u16, 2048>)
    ensures { items numbers.new ≡ map (number_of (held terms.now)) (asked question.now).terms }
{
    numbers.clear();
    for place in 0..question.terms() {
        if let Some((kind, bytes)) = question.term(place) {
            let _ = numbers.push(terms.number(kind, bytes).unwrap_or(0));
        }
    }
}

impl Store {
    // Enters the terms of a question in text order, all of them or none, and keeps the number of each by its place in the text.
    pub fn enter_terms(&mut self, question: &Question) -> Result<(), TermsUnfit>
        ensures answer { result ≡ enters (asked question.now).terms (view self.old) }
        ensures after { view self.new ≡ entered (asked question.now).terms (view self.old) }
        ensures numbers { items self.new.numbers ≡ numbered (asked question.now).terms (view self.old) (items self.old.numbers) }
    {
        let terms = &mut self.documents.terms;
        let known = terms.count();
        // No `?`, since those that did enter are forgotten first.
        if enter_all(terms, question).is_none() {
            terms.cut(known);
            return Err(TermsUnfit);
        }
        number_all(terms, question, &mut self.numbers);
        Ok(())
    }
}
