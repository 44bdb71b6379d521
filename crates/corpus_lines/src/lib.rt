// What the programs over a corpus share: words in hex, and a line of output for each line of input.
#![tactic(auto)]

mod lines;
#[cfg(test)]
mod tests;
mod words;

pub use lines::{answer_hex_lines, answer_lines};
pub use words::{bytes_of, unhex};
