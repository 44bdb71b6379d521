// What a question means: its solutions over a graph with their weights, and the laws of that. The definitions are in specs/.
#![tactic(auto)]

mod laws;

pub use laws::{
    every_web_has_its_universe, lines_are_lawful, listing_is_free, order_and_grouping_are_free,
    patterns_are_lawful, presence_tells_count, star_is_a_chain,
};
