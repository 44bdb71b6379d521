// What every line is made of. A function that writes adds to what is there, or runs out of memory.
ghost use Rattle.std.specs.Prelude.{decimal};
ghost use Rattle.outline.specs.Outlined.{Adds};

use itoa::Buffer;
use std::alloc::AllocError;

// The question and `out` are handed on side by side. Tried as one struct that lends both: each method then has to promise too that it keeps the question, and
// that its lender finds in `out` what the methods wrote stayed open.
pub fn put(bytes: &[u8], out: &mut Vec<u8>) -> Result<(), AllocError>
    ensures { Adds result out.old.items out.new.items bytes.now }
{
    out.extend_from_slice(bytes)
}

// In decimal, without leading zeros. The digits lie on the stack, so memory runs out only where `out` grows. `write_number` of telling is alike, over u64
// and by `to_string`: a crate of its own for two lines would be no plainer.
pub fn put_number(n: usize, out: &mut Vec<u8>) -> Result<(), AllocError>
    ensures { Adds result out.old.items out.new.items (decimal n) }
{
    let mut digits = Buffer::new();
    put(digits.format(n).as_bytes(), out)
}
