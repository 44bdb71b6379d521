// Prints what reading and judging each text of a corpus gives. Standard input has a text to a line, in hex.
#![tactic(auto)]

use corpus_lines::answer_hex_lines;
use judging::Judged;
use outline::{write_question, write_refusal, write_verdict};
use question::Draft;
use std::alloc::AllocError;

// What one text gives.
fn answer(
    draft: &mut Draft,
    judged: &mut Judged,
    text: &[u8],
    out: &mut Vec<u8>,
) -> Result<(), AllocError> {
    match draft.read(text) {
        Ok(()) => {
            write_question(draft, out)?;
            write_verdict(judged.judge(draft), out)
        }
        Err(refusal) => write_refusal(&refusal, out),
    }
}

// One draft reads all texts and one place takes all that are bounded, so what one leaves behind would show in the next.
fn main(rt: HostRuntime) -> anyhow::Result<()> {
    let heap = rt.alloc();
    let mut draft = Draft::new(heap)?;
    let mut judged = Judged::new(heap)?;
    answer_hex_lines(heap, rt.stdin(), &mut rt.stdout(), |text, out| {
        answer(&mut draft, &mut judged, text, out)?;
        Ok(())
    })
}
