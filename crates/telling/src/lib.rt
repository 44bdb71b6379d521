// What a Web answers at an IRI as one line of text, for comparing.
#![tactic(auto)]

use std::alloc::AllocError;
use web::{Cause, Web};

// A buffer is filled with this before each read.
const BLANK: u8 = b'_';

// `put_number` of outline is alike, over usize. Why the two stay apart is said there.
fn write_number(n: u64, out: &mut Vec<u8>) -> Result<(), AllocError> {
    let digits = n.to_string(*out.allocator())?;
    out.extend_from_slice(digits.as_bytes())
}

// A Web, and the IRI at which it is asked.
#[derive(Drop)]
struct Asked<'a, W> {
    web: &'a W,
    iri: &'a [u8],
}

impl<W: Web> Asked<'_, W> {
    // `absent`, `broken` with code and place, or `found` with the list's length, which is given back. Of the others the list is empty.
    fn write_found(&self, out: &mut Vec<u8>) -> Result<usize, AllocError> {
        match self.web.lookup(self.iri) {
            Ok(Some(length)) => {
                out.extend_from_slice(b"found ")?;
                write_number(length as u64, out)?;
                Ok(length)
            }
            Ok(None) => {
                out.extend_from_slice(b"absent")?;
                Ok(0)
            }
            Err(cause) => {
                out.extend_from_slice(b"broken ")?;
                write_number(cause.code(), out)?;
                out.push(b' ')?;
                write_number(cause.place(), out)?;
                Ok(0)
            }
        }
    }

    // A term in its marks, or the number of the refusal. `Web::read` writes into the caller's buffer and tells the length. Two bytes more than any
    // term has would show a write behind the term.
    fn write_term(&self, place: usize, part: u8, out: &mut Vec<u8>) -> Result<(), AllocError> {
        let mut buffer = [BLANK; 130];
        out.push(b' ')?;
        match self.web.read(self.iri, place, part, &mut buffer) {
            Ok(written) => {
                let (term, behind) = buffer.split_at(written.length);
                out.push(written.kind.opening())?;
                out.extend_from_slice(term)?;
                out.extend(behind.iter().filter(|b| **b != BLANK))?;
                out.push(written.kind.closing())?;
                Ok(())
            }
            Err(unwritten) => write_number(u64::from(unwritten.number()), out),
        }
    }

    // What a read tells that has no room for the first object.
    fn write_short(&self, out: &mut Vec<u8>) -> Result<(), AllocError> {
        out.push(b' ')?;
        match self.web.read(self.iri, 0, 3, &mut []) {
            Ok(written) => write_number(written.length as u64, out),
            Err(unwritten) => write_number(u64::from(unwritten.number()), out),
        }
    }
}

// What a lookup tells, and the terms of the list that is found. Then what reads tell that name no triple and no part, and what one tells that has no room.
pub fn write_web<W: Web>(web: &W, iri: &[u8], out: &mut Vec<u8>) -> Result<(), AllocError> {
    let asked = Asked { web, iri };
    let count = asked.write_found(out)?;
    for place in 0..count {
        for part in 1..4 {
            asked.write_term(place, part, out)?;
        }
    }
    asked.write_term(count, 1, out)?;
    asked.write_term(0, 0, out)?;
    asked.write_term(0, 4, out)?;
    asked.write_short(out)
}
