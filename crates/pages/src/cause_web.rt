// A cause tells its code and its place.
ghost use Rattle.std.specs.Prelude.{◌≡◌};
ghost use Rattle.pages.specs.Pages.{cause_mark, cause, fault_code};
ghost use Rattle.pages.specs.declared.cause.Fault.TheVariants.{Unreadable};

use crate::cause::{Fault, PageCause};
use lines::BadLine;
use web::Cause;

impl Fault {
    pub fn code(self) -> u64
        ensures { result ≡ fault_code self }
    {
        self as u64
    }
}

impl Cause for PageCause {
    ghost mark = { cause_mark };

    fn code(&self) -> u64 {
        self.fault.code()
    }

    fn place(&self) -> u64 {
        self.line
    }
}

// What the line reader dislikes breaks the page that the line is on.
impl From<BadLine> for PageCause {
    ghost from_gives = { λ b c. c ≡ cause Unreadable b.line };

    fn from(bad: BadLine) -> PageCause {
        PageCause {
            fault: Fault::Unreadable,
            line: bad.line,
        }
    }
}
