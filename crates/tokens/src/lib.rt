// Tokens of a question, cut from its bytes one at a time.
#![tactic(auto)]

mod laws;
mod lexer;
mod runs;
mod token;

pub use laws::tokens_are_laid;
pub use lexer::next;
pub use token::{Lexeme, Token};

#[cfg(test)]
mod tests;
