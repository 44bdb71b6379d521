// Prints what page files, and pairs of them, answer. A line of standard input has two files and an IRI, in hex, parted by single spaces.
#![tactic(auto)]

use anyhow::anyhow;
use corpus_lines::{answer_lines, unhex};
use pages::{Pages, TooLong};
use std::alloc::{AllocError, Global};
use telling::write_web;
use web::Pair;

// The number by which a file is refused, behind some words.
fn write_refused(words: &str, refused: TooLong, out: &mut Vec<u8>) -> Result<(), AllocError> {
    let line = format!(in *out.allocator(); "{words}refused {}", refused.number())?;
    out.extend_from_slice(line.as_bytes())
}

// What the first file answers alone, and with the second behind it.
fn answer(first: &[u8], second: &[u8], iri: &[u8], out: &mut Vec<u8>) -> Result<(), AllocError> {
    match (Pages::new(first), Pages::new(second)) {
        (Err(refused), _) => write_refused("", refused, out),
        (Ok(_), Err(refused)) => write_refused("then ", refused, out),
        (Ok(first), Ok(second)) => {
            write_web(&first, iri, out)?;
            out.extend_from_slice(b" | ")?;
            write_web(&Pair { first, second }, iri, out)
        }
    }
}

// The bytes that a word spells in hex. A lone `-` is no bytes.
fn bytes(heap: Global, word: &str) -> anyhow::Result<Vec<u8>> {
    if word == "-" {
        return Ok(Vec::new(heap));
    }
    unhex(heap, word.as_bytes())?.ok_or_else(|| anyhow!("a word is not in hex"))
}

fn run(rt: &HostRuntime) -> anyhow::Result<()> {
    let heap = rt.alloc();
    answer_lines(heap, rt.stdin(), &mut rt.stdout(), |line, out| {
        let mut words = line.split(' ');
        let (Some(one), Some(two), Some(three)) = (words.next(), words.next(), words.next()) else {
            return Err(anyhow!("a line has three words"));
        };
        let first = bytes(heap, one)?;
        let second = bytes(heap, two)?;
        let iri = bytes(heap, three)?;
        answer(first.as_slice(), second.as_slice(), iri.as_slice(), out)?;
        Ok(())
    })
}

fn main(rt: HostRuntime) -> anyhow::Result<()> {
    run(&rt)
}
