// How a bounded question is walked from document to document, and why that finds everything. The definitions are in specs/.
#![tactic(auto)]

mod laws;

pub use laws::{
    crowds_are_translated, lookups_stay_needed, names_are_free, needs_are_listed,
    nothing_else_matters, record_makes_the_shelf, record_suffices, walk_is_complete,
    walks_only_grow,
};
