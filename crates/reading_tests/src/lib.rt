// Texts, and what reading them gives. There is no code here but tests.
#![tactic(auto)]

#[cfg(test)]
mod lines;
#[cfg(test)]
mod questions;
#[cfg(test)]
mod refusals;
