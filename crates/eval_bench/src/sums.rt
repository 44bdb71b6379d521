// What an evaluation came to, in a form that does not depend on the order of rows nor on the numbers of terms.
use evaluation::Workspace;
use lexicon::Lexicon;
use tables::Entry;
use terms::Kind;

#[derive(Clone, Copy)]
pub struct Sums {
    pub rows: usize,
    pub needs: usize,
    pub checksum: u64,
}

// The hash of Fowler, Noll and Vo.
fn hashed(hash: u64, byte: u8) -> u64 {
    (hash ^ u64::from(byte)).wrapping_mul(1_099_511_628_211)
}

// A term by its mark and bytes, and nothing for no term; and a byte that stands in no term.
fn hashed_term(hash: u64, term: Option<(Kind, &[u8])>) -> u64 {
    let spelled = match term {
        Some((kind, bytes)) => bytes
            .iter()
            .fold(hashed(hash, kind.opening()), |sum, b| hashed(sum, *b)),
        None => hash,
    };
    hashed(spelled, b'\n')
}

fn hashed_row(variables: usize, terms: &Lexicon, entry: Entry) -> u64 {
    let start = 14_695_981_039_346_656_037 ^ u64::from(entry.weight);
    entry.row.places.iter().take(variables).fold(
        start,
        |hash, number| hashed_term(hash, terms.term(*number)),
    )
}

impl Sums {
    // The rows, the needed IRIs and the sum over all rows, of a question with so many variables.
    pub fn of(variables: usize, terms: &Lexicon, workspace: &Workspace) -> Sums {
        let rows = workspace.rows();
        let checksum = rows.entries().iter().fold(
            0,
            |sum: u64, entry| sum.wrapping_add(hashed_row(variables, terms, *entry)),
        );
        let needs = terms
            .kinds()
            .iter()
            .zip(workspace.needs().iter().skip(1))
            .filter(|(kind, needed)| **kind == Kind::Iri && **needed)
            .count();
        Sums {
            rows: rows.len(),
            needs,
            checksum,
        }
    }
}
