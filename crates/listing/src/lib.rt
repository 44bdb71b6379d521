// The text of a list of weighted rows, as it is handed out.
#![tactic(auto)]

mod laws;
mod name;
mod names;
mod naming;
mod put;
mod refusal;
#[cfg(test)]
mod tests;
mod writing;

pub use laws::lists_are_lawful;
pub use names::Names;
pub use refusal::TooShort;
pub use writing::list;
