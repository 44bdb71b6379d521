// The documents at hand, as an evaluation reads them: terms by number, a record of IRIs, and the triples that their documents list.
#![tactic(auto)]

mod items;
mod read;
mod shelf;

pub use items::{Listed, Mark, Noted};
pub use shelf::Shelf;
