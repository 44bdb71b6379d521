// Kinds of weight: how the ways in which a solution comes about are added, multiplied and ordered.
#![tactic(auto)]

mod count;
mod laws;
mod presence;
mod weight;

pub use count::Count;
pub use laws::lawful_codes_are_fair;
pub use presence::Presence;
pub use weight::Weight;
