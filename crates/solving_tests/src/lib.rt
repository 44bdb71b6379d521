// Kinds of weight and rows against tables. There is no code here but tests.
#![tactic(auto)]

#[cfg(test)]
mod joins;
#[cfg(test)]
mod kinds;
