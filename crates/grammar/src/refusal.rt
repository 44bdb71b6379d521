// Why a text is refused.
ghost use Rattle.std.specs.Prelude.{◌≡◌};
ghost use Rattle.grammar.specs.declared.refusal.Refusal.TheVariants.{At};

// What is wrong with one token, by the number that tells it.
#[derive(Clone, Copy, PartialEq, Eq)]
pub enum Reason {
    NoQuestion = 2,
    TooDeep = 3,
    TooManyVariables = 5,
    TooLong = 6,
}

// A token that is refused, by the offset of its first byte.
#[derive(Clone, Copy, PartialEq, Eq)]
pub struct Fault {
    pub reason: Reason,
    pub at: usize,
}

#[derive(Clone, Copy, PartialEq, Eq)]
pub enum Refusal {
    TextTooLong,
    TooManyNodes,
    At(Fault),
}

impl From<Fault> for Refusal {
    ghost from_gives = { λ f r. r ≡ At f };

    fn from(fault: Fault) -> Refusal {
        Refusal::At(fault)
    }
}
