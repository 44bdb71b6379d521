// Terms and names. A number that stands for nothing is written as the empty IRI or name, which no text has.
ghost use Rattle.question.specs.Asking.{asked};
ghost use Rattle.outline.specs.Outlined.{Adds, name_text, term_text, end_text, names_text};
ghost use Rattle.question.specs.Parts.{term_at, name_at, end_at};

use crate::bytes::put;
use question::{End, Question};
use std::alloc::AllocError;

pub fn put_name(q: &Question, number: usize, out: &mut Vec<u8>) -> Result<(), AllocError>
    ensures { Adds result out.old.items out.new.items (name_text (name_at q.now number)) }
{
    put(b"?", out)?;
    put(q.name(number).unwrap_or(b""), out)
}

pub fn put_term(q: &Question, number: usize, out: &mut Vec<u8>) -> Result<(), AllocError>
    ensures { Adds result out.old.items out.new.items (term_text (term_at q.now number)) }
{
    match q.term(number) {
        Some((kind, bytes)) => {
            put(&[kind.opening()], out)?;
            put(bytes, out)?;
            put(&[kind.closing()], out)
        }
        None => put(b"<>", out),
    }
}

pub fn put_end(q: &Question, end: End<usize>, out: &mut Vec<u8>) -> Result<(), AllocError>
    ensures { Adds result out.old.items out.new.items (end_text (end_at q.now end)) }
{
    match end {
        End::Term(number) => put_term(q, number, out),
        End::Variable(variable) => put_name(q, variable.number, out),
    }
}

// All variables, with commas between.
pub fn put_names(q: &Question, out: &mut Vec<u8>) -> Result<(), AllocError>
    ensures { Adds result out.old.items out.new.items (names_text (asked q.now).names) }
{
    if q.variables() == 0 {
        return put(b"-", out);
    }
    put_name(q, 0, out)?;
    for number in 1..q.variables() {
        put(b",", out)?;
        put_name(q, number, out)?;
    }
    Ok(())
}
