// Why a term was not written into a buffer.
ghost use Rattle.std.specs.Prelude.{◌≡◌};
ghost use Rattle.terms.specs.Unwritten.{unwritten_number};

#[derive(Clone, Copy, PartialEq, Eq)]
pub enum Unwritten {
    // There is no such term.
    NoSuch = 14,
    // The buffer is shorter than the term.
    TooShort = 15,
}

impl Unwritten {
    pub fn number(self) -> u8
        ensures { result ≡ unwritten_number self }
    {
        self as u8
    }
}
