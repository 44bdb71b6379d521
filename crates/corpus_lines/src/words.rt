// Bytes from hex.
ghost use Rattle.std.specs.Prelude.{◌≡◌, ◌≢◌, ℕ, List, IfOk, MatchOption};
ghost use Rattle.std.specs.List.{list_any};
ghost use Rattle.std.specs.Char.{is_ascii_uppercase};
ghost use Rattle.hex.specs.Hex.{IsBytes, encode_lower};

use anyhow::anyhow;
use hex::FromHexError;
use std::alloc::Global;

// Whether there is a capital letter. A `fold` and not an `any`: with no early end the compiler takes many letters at a time.
fn has_capital(word: &[u8]) -> bool
    ensures { result ≡ list_any is_ascii_uppercase word.now }
{
    word.iter()
        .fold(false, |found, b| found | b.is_ascii_uppercase())
}

// The bytes that a word spells, if it is in hex with small letters. The only error is that memory runs out.
pub fn unhex(heap: Global, word: &[u8]) -> Result<Option<Vec<u8>>, FromHexError>
    ensures { IfOk result (λ found. MatchOption found ((bytes : List ℕ) → IsBytes bytes → word.now ≢ encode_lower bytes) (λ v. word.now ≡ encode_lower v.items)) }
{
    // Capital letters decode too, but no bytes are written so.
    if has_capital(word) {
        return Ok(None);
    }
    match hex::decode(heap, word) {
        Ok(bytes) => Ok(Some(bytes)),
        Err(refused) => match refused {
            FromHexError::OutOfMemory => Err(refused),
            _ => Ok(None),
        },
    }
}

// The bytes that a word spells, or an error of this message.
pub fn bytes_of(heap: Global, word: &[u8], message: &'static str) -> anyhow::Result<Vec<u8>>
    ensures { IfOk result (λ bytes. word.now ≡ encode_lower bytes.items) }
{
    unhex(heap, word)?.ok_or_else(|| anyhow!("{message}"))
}
