// Runs of bytes, as long as they can be. A run is a front of the bytes, so it is never longer than they are.
ghost use Rattle.std.specs.Prelude.{◌≡◌, length, take_while};
ghost use Rattle.lines.specs.Runs.{differs, term_byte};

use memchr::memchr;
use terms::{Kind, is_iri_byte, is_literal_byte};

// How many bytes stand here that a term of a kind may have. A chain for each kind: one chain would have the same `match` within its test, at each byte,
// and be no plainer.
pub fn term_run(bytes: &[u8], kind: Kind) -> usize
    ensures { result ≡ length (take_while (term_byte kind) bytes.now) }
{
    match kind {
        Kind::Iri => bytes.iter().take_while(|b| is_iri_byte(**b)).count(),
        Kind::Literal => bytes.iter().take_while(|b| is_literal_byte(**b)).count(),
    }
}

// How many bytes stand before the first that is `stop`.
#[tactic(auto, using(crate::proofs::Before::before_first))]
pub fn run_before(bytes: &[u8], stop: u8) -> usize
    ensures { result ≡ length (take_while (differs stop) bytes.now) }
{
    memchr(stop, bytes).unwrap_or(bytes.len())
}
