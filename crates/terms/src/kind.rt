// The two kinds of term. Equal terms have equal kind and equal bytes.
ghost use Rattle.std.specs.Prelude.{◌≡◌};
ghost use Rattle.terms.specs.Lawful.{kind_number, fitting};
ghost use Rattle.terms.specs.Marks.{opening, closing};

#[derive(Clone, Copy, PartialEq, Eq)]
pub enum Kind {
    Iri = 1,
    Literal = 2,
}

impl Kind {
    pub fn number(self) -> u8
        ensures { result ≡ kind_number self }
    {
        self as u8
    }

    // The mark before a term of this kind.
    pub fn opening(self) -> u8
        ensures { result ≡ opening self }
    {
        match self {
            Kind::Iri => b'<',
            Kind::Literal => b'"',
        }
    }

    // The mark behind it.
    pub fn closing(self) -> u8
        ensures { result ≡ closing self }
    {
        match self {
            Kind::Iri => b'>',
            Kind::Literal => b'"',
        }
    }

    // Whether a term of this kind may have so many bytes.
    pub fn fits(self, length: usize) -> bool
        ensures { result ≡ fitting self length }
    {
        match self {
            Kind::Iri => 1 <= length && length <= 128,
            Kind::Literal => length <= 128,
        }
    }
}
