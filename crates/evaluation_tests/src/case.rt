use anyhow::anyhow;
use pages::Pages;
use shelf_telling::{Bench, Spelling};
use weights::Weight;

// A question, a page file, and the IRIs that are looked up in it, parted by spaces.
#[derive(Clone, Copy)]
pub(crate) struct Case<'a> {
    pub(crate) question: &'a str,
    pub(crate) file: &'a str,
    pub(crate) recorded: &'a str,
}

impl Case<'_> {
    // What the question has and needs, in place of what was written there before.
    pub(crate) fn answer<K: Weight>(
        self,
        bench: &mut Bench,
        kind: &K,
        out: &mut Vec<u8>,
    ) -> anyhow::Result<()> {
        let heap = *out.allocator();
        out.clear();
        let pages = Pages::new(self.file.as_bytes()).map_err(|_| anyhow!("the file is too long"))?;
        let mut store = bench.ask(heap, self.question.as_bytes())?;
        for iri in self.recorded.split_whitespace() {
            bench.record(heap, &mut store, &pages, iri.as_bytes())?;
        }
        bench.write(kind, Spelling::Marked, &mut store, out)
    }
}
