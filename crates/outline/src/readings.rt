// Reads a text, and writes the line of what it asks or of how it is refused.
ghost use Rattle.question.specs.Answers.{held};
ghost use Rattle.outline.specs.Outlined.{Reads};

use crate::lines::{write_question, write_refusal};
use question::Draft;
use std::alloc::AllocError;

pub fn write_reading(draft: &mut Draft, text: &[u8], out: &mut Vec<u8>) -> Result<(), AllocError>
    ensures { Reads text.now (held draft.old) (held draft.new) result out.old.items out.new.items }
{
    match draft.read(text) {
        Ok(()) => write_question(draft, out),
        Err(refusal) => write_refusal(&refusal, out),
    }
}
