// The buffer is shorter than the text.
ghost use Rattle.std.specs.Prelude.{◌≡◌};
ghost use Rattle.terms.specs.Unwritten.{unwritten_number};
ghost use Rattle.terms.specs.declared.unwritten.Unwritten.TheVariants.{TooShort as Short};

use terms::Unwritten;

#[derive(Clone, Copy)]
pub struct TooShort;

impl TooShort {
    // The number of a term that does not fit.
    pub fn number(self) -> u8
        ensures { result ≡ unwritten_number Short }
    {
        Unwritten::TooShort.number()
    }
}
