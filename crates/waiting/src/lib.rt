// The rows of an answer that wait to be taken, in the order of their kind of weight.
#![tactic(auto)]

mod first;
mod laws;
mod making;
mod replace;
mod take;
#[cfg(test)]
mod tests;
mod waiting;

pub use laws::waiting_is_settled;
pub use take::NothingWaits;
pub use waiting::Waiting;
