// How judging declines.
ghost use Rattle.std.specs.Prelude.{◌≡◌};

// No walk could answer the question completely. The one reason for which judging declines: an enum of one variant would be no plainer.
#[derive(Clone, Copy)]
pub struct NotBounded;

impl NotBounded {
    pub fn number(&self) -> u8
        ensures { result ≡ 7 }
    {
        7
    }
}
