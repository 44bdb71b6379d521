// Judges a draft.
ghost use Rattle.std.specs.Prelude.{◌≡◌, ℕ, List, IfOk};
ghost use Rattle.question.specs.Answers.{held};
ghost use Rattle.question.specs.Asking.{nothing_asked};
ghost use Rattle.grammar.specs.Walkable.{walkable as can_walk};
ghost use Rattle.judging.specs.Judging.{Answer, accepted};
ghost use Rattle.judging.specs.Masked.{Judges, asks_by, path_by};

use crate::judged::Judged;
use crate::masks::count;
use crate::paths::walkable;
use crate::patterns::judge;
use crate::refusal::NotBounded;
use question::{Draft, Question};
use std::alloc::{AllocError, Global};

impl Judged {
    // The empty group. Only this call can fail for want of memory.
    pub fn new(heap: Global) -> Result<Judged, AllocError>
        ensures { IfOk result (λ j. accepted j ≡ nothing_asked) }
    {
        let question = Question::reserve(heap)?;
        Ok(Judged { question })
    }

    // Takes the draft's question if it is bounded, and tells how many of its variables are sure.
    pub fn judge(&mut self, draft: &Draft) -> Result<u32, NotBounded>
        ensures { Answer (held draft.now) (accepted self.old) result (accepted self.new) }
    {
        let q = draft.question();
        let sure = judge(q, q.root(), 0).ok_or(NotBounded)?;
        self.question.copy(q);
        Ok(count(sure))
    }

    pub fn question(&self) -> &Question
        ensures { result.now ≡ self.now.question }
    {
        &self.question
    }

    // The sure variables of the pattern at an index, if those that are fixed bound it. The walk goes through an AND's left side first where they
    // bound that side. What its terms stand for does not matter.
    pub fn sure(&self, index: usize, fixed: u8) -> Option<u8>
        ensures { (numbers : List ℕ) → Judges (asks_by numbers self.now.question index) fixed result }
    {
        judge(&self.question, index, fixed)
    }

    // Whether the path at an index can be walked, by which of its ends are fixed. The walk goes from the left where it can.
    pub fn walkable(&self, index: usize, left: bool, right: bool) -> bool
        ensures { (numbers : List ℕ) → result ≡ can_walk (path_by numbers self.now.question index) left right }
    {
        walkable(&self.question, index, left, right)
    }
}
