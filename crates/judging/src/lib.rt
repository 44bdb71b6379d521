// Judging: whether a question can be walked completely, before any document is touched.
#![tactic(auto)]

mod judge;
mod judged;
mod masks;
mod paths;
mod patterns;
mod refusal;

pub use judged::Judged;
pub use masks::{is_fixed, mask_of};
pub use refusal::NotBounded;
