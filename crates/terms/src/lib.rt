// Terms: what an address or a literal is made of.
#![tactic(auto)]

mod bytes;
mod kind;
mod lawful;
mod unwritten;

pub use bytes::{is_blank, is_iri_byte, is_literal_byte, is_word_byte};
pub use kind::Kind;
pub use lawful::is_iri;
pub use unwritten::Unwritten;
