// Prints what questions have and need over the documents at hand. A line of standard input has a case: how cases and answers are written is said in
// tools/second-engine/README.md.
#![tactic(auto)]

use anyhow::anyhow;
use corpus_lines::{answer_lines, bytes_of};
use pages::Pages;
use shelf_telling::{Bench, Spelling};
use std::alloc::Global;
use weights::{Count, Presence};

// The bytes of a page file. A lone `-` is no bytes.
fn file_of(heap: Global, word: &str) -> anyhow::Result<Vec<u8>> {
    match word {
        "-" => Ok(Vec::new(heap)),
        _ => bytes_of(heap, word.as_bytes(), "a page file is not in hex"),
    }
}

fn answer(heap: Global, bench: &mut Bench, line: &str, out: &mut Vec<u8>) -> anyhow::Result<()> {
    let mut words = line.split(' ');
    let (Some(kind), Some(text), Some(file)) = (words.next(), words.next(), words.next()) else {
        return Err(anyhow!("a line has three words at least"));
    };
    let text = bytes_of(heap, text.as_bytes(), "a question is not in hex")?;
    let file = file_of(heap, file)?;
    let pages = Pages::new(file.as_slice()).map_err(|_| anyhow!("a page file is too long"))?;
    let mut store = bench.ask(heap, text.as_slice())?;
    for word in words {
        let iri = bytes_of(heap, word.as_bytes(), "an IRI is not in hex")?;
        bench.record(heap, &mut store, &pages, iri.as_slice())?;
    }
    match kind {
        "c" => bench.write(&Count, Spelling::Hex, &mut store, out),
        "p" => bench.write(&Presence, Spelling::Hex, &mut store, out),
        _ => Err(anyhow!("a kind is c or p")),
    }
}

// One bench serves all cases. A store is made for each, since it forgets nothing.
fn run(rt: &HostRuntime) -> anyhow::Result<()> {
    let heap = rt.alloc();
    let mut bench = Bench::new(heap)?;
    answer_lines(heap, rt.stdin(), &mut rt.stdout(), |line, out| {
        answer(heap, &mut bench, line, out)
    })
}

fn main(rt: HostRuntime) -> anyhow::Result<()> {
    run(&rt)
}
