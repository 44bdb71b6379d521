use outline::{write_question, write_reading};
use question::Draft;
use std::alloc::{AllocError, Global};
use std::process::Abort;
use std::test::Fail;

// A head, a piece with how often it stands there, and a tail.
pub type Repeat = (&'static str, &'static str, usize, &'static str);

pub fn spell(heap: Global, parts: Repeat) -> Result<String, AllocError> {
    let (head, piece, count, tail) = parts;
    let pieces = piece.repeat(heap, count)?;
    format!(in heap; "{head}{pieces}{tail}")
}

pub fn describe(heap: Global, parts: Repeat) -> Result<String, AllocError> {
    let (head, piece, count, tail) = parts;
    format!(in heap; "{head}, {piece} {count} times, {tail}")
}

// One draft that reads all texts, and the last line that was written. A note says which text it was.
#[derive(Drop)]
pub struct Bench<'a, R> {
    rt: &'a R,
    draft: Draft,
    out: Vec<u8>,
}

impl<'a, R: Abort> Bench<'a, R> {
    pub fn new(rt: &'a R, heap: Global) -> Result<Bench<'a, R>, AllocError> {
        Ok(Bench {
            rt,
            draft: Draft::new(heap)?,
            out: Vec::new(heap),
        })
    }

    // Reading a text gives this line.
    pub fn check_line(&mut self, text: &str, line: &str, note: &str) -> Result<(), Fail> {
        self.out.clear();
        write_reading(&mut self.draft, text.as_bytes(), &mut self.out)?;
        assert_eq!(self.rt; self.out.as_slice(), line.as_bytes(), "{note}");
        Ok(())
    }

    // The draft asks what this line says.
    pub fn check_held(&mut self, line: &str, note: &str) -> Result<(), Fail> {
        self.out.clear();
        write_question(&self.draft, &mut self.out)?;
        assert_eq!(self.rt; self.out.as_slice(), line.as_bytes(), "{note}");
        Ok(())
    }
}
