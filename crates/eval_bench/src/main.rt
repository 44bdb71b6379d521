// Evaluates a question over all documents of a page file, as often as the argument says, and prints what came of it last. For measuring.
#![tactic(auto)]

mod case;
mod sums;

use anyhow::Context;
use case::Case;
use evaluation::Workspace;
use std::env;
use std::io::Read;

// How often to evaluate: the first word behind the program's name.
fn turns(rt: &HostRuntime) -> anyhow::Result<usize> {
    let word = env::args(rt)?.nth(1).context("no number of turns")?;
    Ok(word.as_str().parse::<usize>()?)
}

fn run(rt: &HostRuntime) -> anyhow::Result<()> {
    let heap = rt.alloc();
    let mut input = Vec::new(heap);
    rt.stdin().read_to_end(&mut input)?;
    let mut case = Case::new(heap)?;
    case.pose(heap, input.as_slice())?;
    let mut workspace = Workspace::new(heap)?;
    let sums = case.evaluate(turns(rt)?, &mut workspace)?;
    println!(rt;
        "rows {} needs {} checksum {}",
        sums.rows, sums.needs, sums.checksum
    )?;
    Ok(())
}

fn main(rt: HostRuntime) -> anyhow::Result<()> {
    run(&rt)
}
