// The two lines that reading a text can give, and what judging adds.
ghost use Rattle.question.specs.Answers.{held};
ghost use Rattle.outline.specs.Outlined.{Adds, outlined, refused_text, refusal_text, verdict_text};

use crate::bytes::{put, put_number};
use crate::ends::put_names;
use crate::patterns::put_pattern;
use grammar::Refusal;
use judging::NotBounded;
use question::Draft;
use std::alloc::AllocError;

pub fn write_question(draft: &Draft, out: &mut Vec<u8>) -> Result<(), AllocError>
    ensures { Adds result out.old.items out.new.items (outlined (held draft.now)) }
{
    let q = draft.question();
    put(b"ok ", out)?;
    put_number(draft.nodes(), out)?;
    put(b" ", out)?;
    put_names(q, out)?;
    put(b" ", out)?;
    put_pattern(q, q.nodes(), q.root(), out)
}

fn put_refused(number: u8, out: &mut Vec<u8>) -> Result<(), AllocError>
    ensures { Adds result out.old.items out.new.items (refused_text number) }
{
    put(b"refused ", out)?;
    put_number(usize::from(number), out)
}

pub fn write_refusal(r: &Refusal, out: &mut Vec<u8>) -> Result<(), AllocError>
    ensures { Adds result out.old.items out.new.items (refusal_text r.now) }
{
    put_refused(r.number(), out)?;
    if let Some(at) = r.offset() {
        put(b" at ", out)?;
        put_number(at, out)?;
    }
    Ok(())
}

pub fn write_verdict(verdict: Result<u32, NotBounded>, out: &mut Vec<u8>) -> Result<(), AllocError>
    ensures { Adds result out.old.items out.new.items (verdict_text verdict) }
{
    match verdict {
        Ok(count) => {
            put(b" sure ", out)?;
            put_number(count as usize, out)
        }
        Err(refusal) => {
            put(b" ", out)?;
            put_refused(refusal.number(), out)
        }
    }
}
