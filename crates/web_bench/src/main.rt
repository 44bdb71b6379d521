// Looks up every address that a page file opens, reads every term of what is found, and prints how much that was. For measuring.
#![tactic(auto)]

use lines::{Lines, opening};
use pages::Pages;
use std::io::Read;
use web::Web;

#[derive(Clone, Copy)]
struct Sums {
    lookups: u64,
    terms: u64,
    bytes: u64,
}

impl Sums {
    // `Web::read` writes into the caller's buffer, which is as long as a term may be.
    fn read_one<W: Web>(&mut self, web: &W, iri: &[u8], place: usize, part: u8) {
        let mut buffer = [0; 128];
        if let Ok(written) = web.read(iri, place, part, &mut buffer) {
            self.terms = self.terms.wrapping_add(1);
            self.bytes = buffer
                .iter()
                .take(written.length)
                .fold(self.bytes, |sum, b| sum.wrapping_add(u64::from(*b)));
        }
    }

    fn read_all<W: Web>(&mut self, web: &W, iri: &[u8]) {
        self.lookups = self.lookups.wrapping_add(1);
        if let Ok(Some(count)) = web.lookup(iri) {
            for place in 0..count {
                for part in 1..4 {
                    self.read_one(web, iri, place, part);
                }
            }
        }
    }
}

fn every_page(file: &[u8]) -> Sums {
    let mut sums = Sums {
        lookups: 0,
        terms: 0,
        bytes: 0,
    };
    if let Ok(pages) = Pages::new(file) {
        let lines = Lines {
            rest: file,
            passed: 0,
        };
        for line in lines {
            if let Ok(address) = opening(line) {
                sums.read_all(&pages, address);
            }
        }
    }
    sums
}

fn run(rt: &HostRuntime) -> anyhow::Result<()> {
    let heap = rt.alloc();
    let mut file = Vec::new(heap);
    rt.stdin().read_to_end(&mut file)?;
    let sums = every_page(file.as_slice());
    println!(rt;
        "lookups {} terms {} bytes {}",
        sums.lookups, sums.terms, sums.bytes
    )?;
    Ok(())
}

fn main(rt: HostRuntime) -> anyhow::Result<()> {
    run(&rt)
}
