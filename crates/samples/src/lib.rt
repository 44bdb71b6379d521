// Questions with their solutions, worked out by the definitions.
#![tactic(auto)]

mod feeders;
mod handed;
mod many;
mod plans;
mod rounds;
mod shown;
mod walked;
mod weighed;

pub use feeders::feeders_show_it;
pub use handed::plans_hand_on;
pub use many::many_are_counted;
pub use plans::plans_are_static;
pub use rounds::rounds_show_it;
pub use shown::pages_show_it;
pub use walked::walks_show_it;
pub use weighed::weights_show_it;
