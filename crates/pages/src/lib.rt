// Page files: a file of pages as a Web.
#![tactic(auto)]

mod cause;
mod cause_web;
mod laws;
mod pages;
mod pages_web;
mod scan;

pub use cause::{Fault, PageCause};
pub use laws::pages_are_lawful;
pub use pages::{Pages, TooLong};
