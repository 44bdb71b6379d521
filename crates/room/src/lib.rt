// Bounded memory: a list that is reserved for so many items once, and never holds more. On the heap, unlike the library's `ArrayVec`, whose items lie in the value
// itself: the longest list here has 32,768.
#![tactic(auto)]

mod full;
mod read;
mod room;
#[cfg(test)]
mod tests;
mod write;

pub use full::Full;
pub use room::Room;
