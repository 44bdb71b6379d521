// How the programs tell that they decline an input.
use std::io;

// The number of a refusal, and on the standard error where the token begins that is refused, if one is.
pub fn tell_refusal(rt: &HostRuntime, number: u8, offset: Option<usize>) -> io::Result<()> {
    println!(rt; "refused {number}")?;
    match offset {
        Some(offset) => eprintln!(rt; "at byte {offset}"),
        None => Ok(()),
    }
}
