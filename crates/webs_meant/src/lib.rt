// The Webs that programs look into are the Webs that questions are about.
#![tactic(auto)]

mod laws;

pub use laws::{agreeing_webs_mean_the_same, every_web_is_meant, lawful_meanings_are_webs};
