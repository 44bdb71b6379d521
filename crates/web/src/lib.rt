// What every make of Web is asked, with its meaning; and two Webs as one.
#![tactic(auto)]

mod answers;
mod laws;
mod pair;
mod pair_web;
mod web;
mod writes;

pub use answers::Written;
pub use laws::{agreement_is_lawful, pairs_tell, terms_fit, webs_agree};
pub use pair::{Pair, PairCause};
pub use web::{Cause, Web};
pub use writes::give;
