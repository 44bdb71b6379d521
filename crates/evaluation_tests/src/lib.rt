// Questions over documents at hand, and what they have and need. There is no code here but tests.
#![tactic(auto)]

#[cfg(test)]
mod case;
#[cfg(test)]
mod limits;
#[cfg(test)]
mod table;
