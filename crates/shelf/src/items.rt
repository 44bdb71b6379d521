// What came of looking an IRI up.
#[derive(Clone, Copy)]
pub enum Mark {
    // Its document lists so many triples, and they are kept.
    Found(usize),
    Absent,
    // The code and the place that the Web's cause tells.
    Broken(u64, u64),
    // Its document was found, and would pass a limit.
    Unfit,
}

// An entry of the record: an IRI, what came of looking it up, and where the triples of its document stand.
#[derive(Clone, Copy)]
pub struct Noted {
    pub iri: u16,
    pub mark: Mark,
    pub first: usize,
}

// A triple by the numbers of its terms. 0 is no term, as in the format of a row (crates/rows/src/row.rt).
#[derive(Clone, Copy)]
pub struct Listed {
    pub subject: u16,
    pub predicate: u16,
    pub object: u16,
}
