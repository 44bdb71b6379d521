// A term written at a buffer's front, as every make does it.
ghost use Rattle.std.specs.Prelude.{◌≡◌, Some};
ghost use Rattle.web.specs.Answers.{tells, leaves};

use crate::answers::Written;
use terms::{Kind, Unwritten};

// Writes a term's bytes where the buffer is long enough.
pub fn give(kind: Kind, bytes: &[u8], out: &mut [u8]) -> Result<Written, Unwritten>
    ensures answer { result ≡ tells (Some (record { kind = kind; bytes = bytes.now })) out.old }
    ensures buffer { out.new ≡ leaves (Some (record { kind = kind; bytes = bytes.now })) out.old }
{
    let length = bytes.len();
    if out.len() < length {
        return Err(Unwritten::TooShort);
    }
    out[0..length].copy_from_slice(bytes);
    Ok(Written { kind, length })
}
