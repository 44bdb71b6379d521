// What is needed of a store: which IRI is to be looked up next, and which has no document to answer from.
#![tactic(auto)]

mod laws;
mod lowest;
mod places;

pub use laws::needs_are_lawful;
pub use lowest::lowest_missing;
pub use places::{entry_of, first_spoilt};
