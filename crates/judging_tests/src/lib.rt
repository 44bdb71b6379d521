// Questions and their verdicts. There is no code here but tests.
#![tactic(auto)]

#[cfg(test)]
mod places;
#[cfg(test)]
mod verdicts;
