// What a question has and needs over some documents of a Web as one line of text, for comparing.
#![tactic(auto)]

mod bench;
mod words;

pub use bench::Bench;
pub use words::Spelling;
