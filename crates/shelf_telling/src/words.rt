// An answer in words.
use evaluation::Workspace;
use lexicon::Lexicon;
use rows::Row;
use std::alloc::{AllocError, Global};
use store::Store;
use terms::Kind;

// How a term is written.
#[derive(Clone, Copy)]
pub enum Spelling {
    // In its marks.
    Marked,
    // As `i` or `l`, for its kind, and its bytes in hex.
    Hex,
}

fn letter(kind: Kind) -> u8 {
    match kind {
        Kind::Iri => b'i',
        Kind::Literal => b'l',
    }
}

impl Spelling {
    // Of the number of no term `-`.
    fn write_term(self, terms: &Lexicon, number: u16, out: &mut Vec<u8>) -> Result<(), AllocError> {
        let Some((kind, bytes)) = terms.term(number) else {
            out.push(b'-')?;
            return Ok(());
        };
        match self {
            Spelling::Marked => {
                out.push(kind.opening())?;
                out.extend_from_slice(bytes)?;
                out.push(kind.closing())?;
                Ok(())
            }
            Spelling::Hex => {
                out.push(letter(kind))?;
                let digits = hex::encode(*out.allocator(), bytes)?;
                out.extend_from_slice(digits.as_bytes())
            }
        }
    }

    // So many of the row's terms, parted by commas.
    fn write_row(
        self,
        terms: &Lexicon,
        variables: usize,
        row: Row,
        out: &mut Vec<u8>,
    ) -> Result<(), AllocError> {
        for (at, number) in row.places.iter().take(variables).enumerate() {
            if at > 0 {
                out.push(b',')?;
            }
            self.write_term(terms, *number, out)?;
        }
        Ok(())
    }
}

fn need_words(
    heap: Global,
    workspace: &Workspace,
    spelling: Spelling,
    store: &Store,
) -> anyhow::Result<Vec<Vec<u8>>> {
    let shelf = store.shelf();
    let mut words = Vec::new(heap);
    for (at, needed) in workspace.needs().iter().enumerate() {
        let number = u16::try_from(at)?;
        // What is no IRI needs no document, and may be marked.
        if *needed && shelf.is_iri(number) {
            let mut word = Vec::new(heap);
            spelling.write_term(store.terms(), number, &mut word)?;
            words.push(word)?;
        }
    }
    Ok(words)
}

fn row_words(
    heap: Global,
    workspace: &Workspace,
    variables: usize,
    spelling: Spelling,
    store: &Store,
) -> Result<Vec<Vec<u8>>, AllocError> {
    let mut words = Vec::new(heap);
    for entry in workspace.rows().entries() {
        let weight = format!(in heap; "{}:", entry.weight)?;
        let mut word = weight.into_bytes();
        spelling.write_row(store.terms(), variables, entry.row, &mut word)?;
        words.push(word)?;
    }
    Ok(words)
}

// How many words there are, and the words, ascending by their bytes.
fn write_words(mut words: Vec<Vec<u8>>, out: &mut Vec<u8>) -> Result<(), AllocError> {
    words.sort()?;
    let count = words.len().to_string(*out.allocator())?;
    out.extend_from_slice(count.as_bytes())?;
    for word in words.iter() {
        out.push(b' ')?;
        out.extend_from_slice(word.as_slice())?;
    }
    Ok(())
}

// The IRIs that are needed, and the rows with their weights.
pub fn write_answer(
    workspace: &Workspace,
    variables: usize,
    spelling: Spelling,
    store: &Store,
    out: &mut Vec<u8>,
) -> anyhow::Result<()> {
    let heap = *out.allocator();
    out.extend_from_slice(b"needs ")?;
    write_words(need_words(heap, workspace, spelling, store)?, out)?;
    out.extend_from_slice(b" rows ")?;
    write_words(row_words(heap, workspace, variables, spelling, store)?, out)?;
    Ok(())
}
