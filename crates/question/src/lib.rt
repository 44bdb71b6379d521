// Questions: a place to read one into, and the tree that was read.
#![tactic(auto)]

mod admit;
mod ask;
mod build;
mod copy;
mod draft;
mod expect;
mod joins;
mod node;
mod paths;
mod patterns;
mod question;
mod read;
mod reader;
mod reserve;
mod span;
mod spelled;
mod start;

pub use draft::Draft;
pub use node::{End, Line, PathNode, PatternNode, Variable};
pub use question::Question;
pub use span::{Span, TermSpan};
