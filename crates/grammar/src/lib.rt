// The grammar of questions, its limits and its refusals. The definitions are in specs/.
#![tactic(auto)]

mod laws;
mod refusal;
mod told;

pub use laws::{bounds_are_lawful, numbers_are_faithful, reading_is_exact};
pub use refusal::{Fault, Reason, Refusal};
