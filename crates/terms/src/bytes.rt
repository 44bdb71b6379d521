// Which bytes may stand in a term, in a word, and between tokens.
ghost use Rattle.std.specs.Prelude.{◌≡◌};
ghost use Rattle.terms.specs.Bytes.{blank_byte, iri_byte, literal_byte, word_byte};

// Space, tab, CR and LF part tokens.
pub fn is_blank(b: u8) -> bool
    ensures { result ≡ blank_byte b }
{
    matches!(b, b' ' | b'\t' | b'\r' | b'\n')
}

pub fn is_iri_byte(b: u8) -> bool
    ensures { result ≡ iri_byte b }
{
    match b {
        b'<' | b'>' | b'"' | b'{' | b'}' | b'|' | b'^' | b'\\' | b'`' => false,
        0x21..=0x7e | 0x80..=0xff => true,
        _ => false,
    }
}

pub fn is_literal_byte(b: u8) -> bool
    ensures { result ≡ literal_byte b }
{
    match b {
        b'"' | b'\\' => false,
        0x20..=0x7e | 0x80..=0xff => true,
        _ => false,
    }
}

// A name or a keyword is made of ASCII letters, digits and underscores.
pub fn is_word_byte(b: u8) -> bool
    ensures { result ≡ word_byte b }
{
    matches!(b, b'a'..=b'z' | b'A'..=b'Z' | b'0'..=b'9' | b'_')
}
