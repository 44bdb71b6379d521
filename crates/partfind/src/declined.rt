// Why an input is declined: the first number of question, verdict and file.
ghost use Rattle.std.specs.Prelude.{◌≡◌};
ghost use Rattle.partfind.specs.declared.declined.Declined.TheVariants as declined;
ghost use Rattle.partfind.specs.Declining.{number_of, offset_of};

use grammar::Refusal;
use judging::NotBounded;
use pages::TooLong;

#[derive(Clone, Copy)]
pub enum Declined {
    Text(Refusal),
    Verdict(NotBounded),
    File(TooLong),
}

impl From<Refusal> for Declined {
    ghost from_gives = { λ e d. d ≡ declined.Text e };

    fn from(refusal: Refusal) -> Declined {
        Declined::Text(refusal)
    }
}

impl From<NotBounded> for Declined {
    ghost from_gives = { λ e d. d ≡ declined.Verdict e };

    fn from(refusal: NotBounded) -> Declined {
        Declined::Verdict(refusal)
    }
}

impl From<TooLong> for Declined {
    ghost from_gives = { λ e d. d ≡ declined.File e };

    fn from(refusal: TooLong) -> Declined {
        Declined::File(refusal)
    }
}

impl Declined {
    // Asks its parts: each has its number, and to write it here again would be no plainer.
    pub fn number(&self) -> u8
        ensures { result ≡ number_of self.now }
    {
        match *self {
            Declined::Text(refusal) => refusal.number(),
            Declined::Verdict(refusal) => refusal.number(),
            Declined::File(refusal) => refusal.number(),
        }
    }

    // Where the token begins that is refused, if one is.
    pub fn offset(&self) -> Option<usize>
        ensures { result ≡ offset_of self.now }
    {
        match *self {
            Declined::Text(refusal) => refusal.offset(),
            Declined::Verdict(_) => None,
            Declined::File(_) => None,
        }
    }
}
