// What a session keeps: terms by number, a record of the IRIs that were looked up, and the triples of the documents that were found.
#![tactic(auto)]

mod documents;
mod enter;
mod laws;
mod lend;
mod look;
mod make;
mod record;
mod refusals;
mod store;

pub use laws::keeping_is_lawful;
pub use record::Entry;
pub use refusals::{NoEntry, TermsUnfit, Unlooked};
pub use shelf::Mark;
pub use store::Store;
