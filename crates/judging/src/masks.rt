// Sets of variables as masks of eight bits, and the ends of lines.
ghost use Rattle.std.specs.Prelude.{◌≡◌, ℕ};
ghost use Rattle.grammar.specs.Bounded.{fixed as known};
ghost use Rattle.grammar.specs.Judged.{end_mask};
ghost use Rattle.grammar.specs.Masks.{member};
ghost use Rattle.question.specs.Arena.{end_of};
ghost use Rattle.judging.specs.Judging.{how_many};

use question::End;

// The variable of an end, whatever its term stands for.
pub fn mask_of(end: End<usize>) -> u8
    ensures { (term : ℕ → ℕ) → result ≡ end_mask (end_of term (λ v. v) end) }
{
    match end {
        End::Term(_) => 0,
        End::Variable(v) => 1 << v.number,
    }
}

// Whether the term at an end is known, whatever it stands for.
pub fn is_fixed(end: End<usize>, fixed: u8) -> bool
    ensures { (term : ℕ → ℕ) → result ≡ known (member fixed) (end_of term (λ v. v) end) }
{
    match end {
        End::Term(_) => true,
        End::Variable(v) => (fixed >> v.number) & 1 == 1,
    }
}

// How many variables are in a set.
pub(crate) fn count(mask: u8) -> u32
    ensures { result ≡ how_many (member mask) 8 }
{
    mask.count_ones()
}
