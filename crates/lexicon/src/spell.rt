// Terms with their marks.
ghost use Rattle.std.specs.Prelude.{◌≡◌, ◌+◌, ◌≤◌, ◌++◌, length, drop};
ghost use Rattle.lexicon.specs.Numbering.{term as the, term_at};
ghost use Rattle.lexicon.specs.Spelling.{spelling, spells, spelled};
ghost use Rattle.lexicon.specs.Held.{held};

use crate::lexicon::Lexicon;
use terms::{Kind, Unwritten};

fn write(kind: Kind, bytes: &[u8], out: &mut [u8])
    requires { length bytes.now + 2 ≤ length out.old }
    ensures { out.new ≡ spelling (the kind bytes.now) ++ drop (length bytes.now + 2) out.old }
{
    let end = bytes.len() + 1;
    out[0] = kind.opening();
    out[1..end].copy_from_slice(bytes);
    out[end] = kind.closing();
}

impl Lexicon {
    // Writes the term with a number at the buffer's front, and tells how many bytes it takes.
    pub fn spell(&self, number: u16, out: &mut [u8]) -> Result<usize, Unwritten>
        ensures answer { result ≡ spells (term_at (held self.now) number) out.old }
        ensures buffer { out.new ≡ spelled (term_at (held self.now) number) out.old }
    {
        let (kind, bytes) = self.term(number).ok_or(Unwritten::NoSuch)?;
        let size = bytes.len() + 2;
        if out.len() < size {
            return Err(Unwritten::TooShort);
        }
        write(kind, bytes, out);
        Ok(size)
    }
}
