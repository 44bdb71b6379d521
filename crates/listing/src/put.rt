// What every line is made of. What does not fit is not written, and its place is counted all the same: so into an empty buffer a text is measured.
ghost use Rattle.std.specs.Prelude.{decimal};
ghost use Rattle.lexicon.specs.Held.{held};
ghost use Rattle.listing.specs.Text.{place_text};
ghost use Rattle.listing.specs.Written.{Puts};

use itoa::Buffer;
use lexicon::Lexicon;

// Writes bytes at a place, and tells the place behind them.
pub fn put(bytes: &[u8], at: usize, into: &mut [u8]) -> usize
    ensures { Puts bytes.now at into.old result into.new }
{
    let behind = at.saturating_add(bytes.len());
    if behind <= into.len() {
        into[at..behind].copy_from_slice(bytes);
    }
    behind
}

// In decimal, without leading zeros.
pub fn put_number(n: u32, at: usize, into: &mut [u8]) -> usize
    ensures { Puts (decimal n) at into.old result into.new }
{
    let mut digits = Buffer::new();
    put(digits.format(n).as_bytes(), at, into)
}

// The term with a number, in its marks, or nothing.
pub fn put_term(terms: &Lexicon, number: u16, at: usize, into: &mut [u8]) -> usize
    ensures { Puts (place_text (held terms.now) number) at into.old result into.new }
{
    let Some((kind, bytes)) = terms.term(number) else {
        return at;
    };
    let at = put(&[kind.opening()], at, into);
    let at = put(bytes, at, into);
    put(&[kind.closing()], at, into)
}
