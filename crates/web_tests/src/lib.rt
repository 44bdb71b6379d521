// A page file, pairs and limits, and what Webs answer. There is no code here but tests.
#![tactic(auto)]

#[cfg(test)]
mod limits;
#[cfg(test)]
mod table;
