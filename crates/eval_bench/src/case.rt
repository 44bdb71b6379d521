// A question, and the documents that it is evaluated over.
use crate::sums::Sums;
use anyhow::{Context, anyhow};
use evaluation::{Asked, Workspace};
use input::Parts;
use judging::Judged;
use lines::{Lines, opening};
use pages::Pages;
use question::Draft;
use std::alloc::{AllocError, Global};
use store::Store;
use weights::Count;

#[derive(Drop)]
pub struct Case {
    draft: Draft,
    judged: Judged,
    store: Store,
}

// A question that has an address for its only term, since what enters a store is the terms of a question.
fn naming(heap: Global, address: &[u8]) -> Result<Vec<u8>, AllocError> {
    let mut text = Vec::new(heap);
    text.extend_from_slice(b"{")?;
    for _ in 0..3usize {
        text.extend_from_slice(b" <")?;
        text.extend_from_slice(address)?;
        text.extend_from_slice(b">")?;
    }
    text.extend_from_slice(b" . }")?;
    Ok(text)
}

impl Case {
    pub fn new(heap: Global) -> Result<Case, AllocError> {
        Ok(Case {
            draft: Draft::new(heap)?,
            judged: Judged::new(heap)?,
            store: Store::new(heap)?,
        })
    }

    fn read(&mut self, text: &[u8]) -> anyhow::Result<()> {
        self.draft
            .read(text)
            .map_err(|_| anyhow!("this is no question"))?;
        self.store
            .enter_terms(self.draft.question())
            .map_err(|_| anyhow!("there is no room for the question's terms"))
    }

    // Looks up the document of an address.
    fn record(&mut self, heap: Global, pages: &Pages, address: &[u8]) -> anyhow::Result<()> {
        let text = naming(heap, address)?;
        self.read(text.as_slice())?;
        let iri = *self.store.numbers().first().context("no number")?;
        self.store
            .look(pages, iri)
            .map_err(|_| anyhow!("there is no room in the record"))
    }

    // Looks up every document of the file, and then reads the question.
    pub fn pose(&mut self, heap: Global, input: &[u8]) -> anyhow::Result<()> {
        let parts = Parts::of(input);
        let pages = Pages::new(parts.pages).map_err(|_| anyhow!("the file is too long"))?;
        let lines = Lines {
            rest: parts.pages,
            passed: 0,
        };
        for line in lines {
            if let Ok(address) = opening(line) {
                self.record(heap, &pages, address)?;
            }
        }
        self.read(parts.question)?;
        self.judged
            .judge(&self.draft)
            .map_err(|_| anyhow!("this is not bounded"))?;
        Ok(())
    }

    // Evaluates the question so many times, and sums up what came of it last.
    pub fn evaluate(&self, turns: usize, workspace: &mut Workspace) -> anyhow::Result<Sums> {
        let shelf = self.store.shelf();
        let asked = Asked::new(&self.judged, self.store.numbers()).context("a term is missing")?;
        for _ in 0..turns {
            workspace
                .evaluate(&Count, &asked, &shelf)
                .map_err(|_| anyhow!("too many rows"))?;
        }
        Ok(Sums::of(
            self.judged.question().variables(),
            self.store.terms(),
            workspace,
        ))
    }
}
