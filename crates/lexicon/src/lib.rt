// Terms by number: each is kept once, and told again by its number.
#![tactic(auto)]

mod enter;
mod laws;
mod lexicon;
mod part;
mod read;
mod reserve;
mod spell;

pub use laws::numbers_are_lawful;
pub use lexicon::Lexicon;
