// The front of the input, which is all of it that matters.
ghost use Rattle.std.specs.Prelude.{◌≡◌, IfOk};
ghost use Rattle.question.specs.Asking.{nothing_asked};
ghost use Rattle.partfind.specs.Asking.{Answer, Settles, held};

use crate::declined::Declined;
use input::Parts;
use judging::Judged;
use pages::Pages;
use question::Draft;
use std::alloc::{AllocError, Global};

// A question has at most 2,048 bytes, the line that parts it from the pages three, and the pages have at most 65,536. One byte more shows a file that is longer.
pub const ENOUGH: u64 = 67_588;

// What was read last, and what was judged last that is bounded.
#[derive(Drop)]
pub struct Places {
    draft: Draft,
    judged: Judged,
}

impl Places {
    // The empty group in both. Only this call can fail for want of memory.
    pub fn new(heap: Global) -> Result<Places, AllocError>
        ensures { IfOk result (λ p. held p ≡ record { draft = nothing_asked; judged = nothing_asked }) }
    {
        Ok(Places {
            draft: Draft::new(heap)?,
            judged: Judged::new(heap)?,
        })
    }

    // Reads and judges the question of an input, of which `front` is the first 67,588 bytes, or all if it has fewer. Tells how many variables are sure.
    pub fn ask(&mut self, front: &[u8]) -> Result<u32, Declined>
        ensures { Settles front.now (held self.old) result (held self.new) }
    {
        let parts = Parts::of(front);
        self.settle(parts.question, parts.pages)
    }

    fn settle(&mut self, text: &[u8], file: &[u8]) -> Result<u32, Declined>
        ensures { Answer text.now file.now (held self.old) result (held self.new) }
    {
        self.draft.read(text)?;
        let sure = self.judged.judge(&self.draft)?;
        let _pages = Pages::new(file)?;
        Ok(sure)
    }
}
