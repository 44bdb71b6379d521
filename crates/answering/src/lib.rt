// That what an evaluation computes is what the definitions say.
#![tactic(auto)]

mod laws;

pub use laws::evaluation_is_right;
