// A question as one line of text, for a reader to compare.
#![tactic(auto)]

mod bytes;
mod ends;
mod lines;
mod paths;
mod patterns;
mod readings;

pub use lines::{write_question, write_refusal, write_verdict};
pub use readings::write_reading;
