// How a refusal is told: by a number, and an offset if one token is to blame.
ghost use Rattle.std.specs.Prelude.{◌≡◌};
ghost use Rattle.grammar.specs.Reading.{number_of, offset_of};

use crate::refusal::Refusal;

impl Refusal {
    pub fn number(&self) -> u8
        ensures { result ≡ number_of self.now }
    {
        // 1 and 4 by hand: an enum with a variant that holds data, as `At` does, cannot be cast to its discriminant, so no other form is had.
        match *self {
            Refusal::TextTooLong => 1,
            Refusal::TooManyNodes => 4,
            Refusal::At(fault) => fault.reason as u8,
        }
    }

    pub fn offset(&self) -> Option<usize>
        ensures { result ≡ offset_of self.now }
    {
        match *self {
            Refusal::TextTooLong | Refusal::TooManyNodes => None,
            Refusal::At(fault) => Some(fault.at),
        }
    }
}
