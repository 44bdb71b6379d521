// Reads a question and pages from the standard input, judges the question and measures the pages.
#![tactic(auto)]

mod declined;
mod front;

use front::{ENOUGH, Places};
use input::tell_refusal;
use std::io;
use std::io::Read;

fn main(rt: HostRuntime) -> io::Result<()> {
    let mut bytes = Vec::new(rt.alloc());
    rt.stdin().take(ENOUGH).read_to_end(&mut bytes)?;
    let mut places = Places::new(rt.alloc())?;
    match places.ask(bytes.as_slice()) {
        Ok(sure) => println!(rt; "sure {sure}"),
        Err(declined) => tell_refusal(&rt, declined.number(), declined.offset()),
    }
}
