// A question is asked, IRIs are looked up, and the answer is written.
use crate::words::{Spelling, write_answer};
use anyhow::anyhow;
use evaluation::{Asked, Workspace};
use judging::Judged;
use question::Draft;
use std::alloc::{AllocError, Global};
use store::Store;
use terms::Kind;
use web::Web;
use weights::Weight;

// What serves every question, so that what one leaves behind would show in the next.
#[derive(Drop)]
pub struct Bench {
    draft: Draft,
    judged: Judged,
    workspace: Workspace,
}

// A question that names an IRI.
fn naming(heap: Global, iri: &[u8]) -> Result<Vec<u8>, AllocError> {
    let mut text = Vec::new(heap);
    text.push(b'{')?;
    for _ in 0..3 {
        text.push(b'<')?;
        text.extend_from_slice(iri)?;
        text.push(b'>')?;
    }
    text.extend_from_slice(b".}")?;
    Ok(text)
}

impl Bench {
    pub fn new(heap: Global) -> Result<Bench, AllocError> {
        Ok(Bench {
            draft: Draft::new(heap)?,
            judged: Judged::new(heap)?,
            workspace: Workspace::new(heap)?,
        })
    }

    // Takes a bounded question, and gives a store that has its terms.
    pub fn ask(&mut self, heap: Global, text: &[u8]) -> anyhow::Result<Store> {
        if self.draft.read(text).is_err() || self.judged.judge(&self.draft).is_err() {
            return Err(anyhow!("it is no bounded question"));
        }
        let mut store = Store::new(heap)?;
        self.enter(&mut store)?;
        Ok(store)
    }

    fn enter(&self, store: &mut Store) -> anyhow::Result<()> {
        store
            .enter_terms(self.judged.question())
            .map_err(|_| anyhow!("the question's terms do not fit"))
    }

    // Looks an IRI up. A store looks up its own terms only, so a question that names the IRI enters first.
    pub fn record<W: Web>(
        &mut self,
        heap: Global,
        store: &mut Store,
        web: &W,
        iri: &[u8],
    ) -> anyhow::Result<()> {
        let text = naming(heap, iri)?;
        if self.draft.read(text.as_slice()).is_err() {
            return Err(anyhow!("it is no IRI"));
        }
        store
            .enter_terms(self.draft.question())
            .map_err(|_| anyhow!("the IRI does not fit"))?;
        let number = store
            .terms()
            .number(Kind::Iri, iri)
            .ok_or_else(|| anyhow!("the IRI has no number"))?;
        store
            .look(web, number)
            .map_err(|_| anyhow!("the record is full"))
    }

    // Evaluates the question over what was looked up.
    pub fn write<K: Weight>(
        &mut self,
        kind: &K,
        spelling: Spelling,
        store: &mut Store,
        out: &mut Vec<u8>,
    ) -> anyhow::Result<()> {
        // The store has the numbers of the terms that entered last.
        self.enter(store)?;
        let Some(asked) = Asked::new(&self.judged, store.numbers()) else {
            return Err(anyhow!("a term has no number"));
        };
        match self.workspace.evaluate(kind, &asked, &store.shelf()) {
            Ok(()) => {
                let variables = self.judged.question().variables();
                write_answer(&self.workspace, variables, spelling, store, out)
            }
            Err(_) => {
                out.extend_from_slice(b"too many")?;
                Ok(())
            }
        }
    }
}
