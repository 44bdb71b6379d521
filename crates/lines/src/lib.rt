// Lines of page files: where they end, and what each says.
#![tactic(auto)]

mod cursor;
mod laws;
mod reader;
mod runs;
mod saying;

pub use cursor::{Line, Lines};
pub use laws::lines_are_spelled;
pub use reader::BadLine;
pub use runs::{run_before, term_run};
pub use saying::{Saying, Stated, opening, said, statement};
