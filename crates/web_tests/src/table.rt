use pages::Pages;
use std::alloc::AllocError;
use std::test::Fail;
use telling::write_web;

// A part of the file, of an IRI or of an answer.
#[derive(Clone, Copy)]
enum Piece {
    Text(&'static [u8]),
    // A byte, so many times.
    Times(u8, usize),
    // Each byte from 0x80 to 0xFF once.
    High,
}

// The last line has no line feed.
static FILE: [Piece; 17] = [
    Piece::Text(b"<m:1> <p> <lost> .\nbefore the first page\n"),
    Piece::Text(b"@page <m:1>\n<m:1> <p:alt> <m:2> .\n\n<m:9> <p:val> \"10 u\" .\n"),
    Piece::Text(b"@page <m:1#x>\n<m:1> <p> <unreached> .\n"),
    Piece::Text(b"@page <m:2>\n<m:2> <p> <o> .\n<m:2> oops\n@page <m:2>\n"),
    Piece::Text(b"@page <m:3>\n@page <m:4\n@page <m:5>\n"),
    Piece::Text(b"@page <\x80\xff>\n<\x80> <\xfe> \"\x81 \xff\" .\n@page <m:5>\n<a> <b> <c> .\n"),
    Piece::Text(b"@page <m:6>\n<a> <b> \"c\" .\r\n@page <"),
    Piece::Times(b'i', 128),
    Piece::Text(b">\n<a> <b> \""),
    Piece::Times(b'l', 128),
    Piece::Text(b"\" .\n@page <m:7>\n<a> <b> <"),
    Piece::Times(b'i', 129),
    Piece::Text(b"> .\n@page <m:10>\n<a> <b> \""),
    Piece::Times(b'l', 129),
    Piece::Text(b"\" .\n@page <m:11>\n<a> <b> \""),
    Piece::High,
    Piece::Text(b"\" .\n@page <m:12>\n<a> <b> \"\x7f\" .\n@page <m:8>\n<a> <b> \"\" ."),
];

fn spell(pieces: &[Piece], out: &mut Vec<u8>) -> Result<(), AllocError> {
    for piece in pieces {
        match *piece {
            Piece::Text(text) => out.extend_from_slice(text)?,
            Piece::Times(byte, count) => {
                for _ in 0..count {
                    out.push(byte)?;
                }
            }
            Piece::High => {
                for byte in 0x80..=0xFF {
                    out.push(byte)?;
                }
            }
        }
    }
    Ok(())
}

// An IRI, and what the file answers.
static ROWS: [(&[u8], &[u8]); 21] = [
    (
        b"m:1",
        b"found 2 <m:1> <p:alt> <m:2> <m:9> <p:val> \"10 u\" 14 14 14 15",
    ),
    // An address is cut before its first #.
    (
        b"m:1#",
        b"found 2 <m:1> <p:alt> <m:2> <m:9> <p:val> \"10 u\" 14 14 14 15",
    ),
    (
        b"m:1#x",
        b"found 2 <m:1> <p:alt> <m:2> <m:9> <p:val> \"10 u\" 14 14 14 15",
    ),
    (
        b"m:1#x#y",
        b"found 2 <m:1> <p:alt> <m:2> <m:9> <p:val> \"10 u\" 14 14 14 15",
    ),
    // No page has this name.
    (b"m:9", b"absent 14 14 14 14"),
    (b"m", b"absent 14 14 14 14"),
    (b"lost", b"absent 14 14 14 14"),
    (b"#m:1", b"absent 14 14 14 14"),
    // No IRI, though a page would have the name before the #.
    (b"", b"absent 14 14 14 14"),
    (b"m:1 ", b"absent 14 14 14 14"),
    (b"m:1#<", b"absent 14 14 14 14"),
    // The lowest line at fault.
    (b"m:2", b"broken 1 11 14 14 14 14"),
    (b"m:3", b"broken 1 14 14 14 14 14"),
    (b"m:4", b"absent 14 14 14 14"),
    (b"m:5", b"broken 2 18 14 14 14 14"),
    (
        b"\x80\xff#",
        b"found 1 <\x80> <\xfe> \"\x81 \xff\" 14 14 14 15",
    ),
    // A carriage return is a byte like any other.
    (b"m:6", b"broken 1 21 14 14 14 14"),
    // A term has at most 128 bytes.
    (b"m:7", b"broken 1 25 14 14 14 14"),
    (b"m:10", b"broken 1 27 14 14 14 14"),
    // No term has the byte 0x7F.
    (b"m:12", b"broken 1 31 14 14 14 14"),
    (b"m:8", b"found 1 <a> <b> \"\" 14 14 14 0"),
];

// The same, with terms of 128 bytes and an IRI of 129.
static LONG_ROWS: [(&[Piece], &[Piece]); 3] = [
    (
        &[Piece::Times(b'i', 128)],
        &[
            Piece::Text(b"found 1 <a> <b> \""),
            Piece::Times(b'l', 128),
            Piece::Text(b"\" 14 14 14 15"),
        ],
    ),
    (
        &[Piece::Times(b'i', 129)],
        &[Piece::Text(b"absent 14 14 14 14")],
    ),
    (
        &[Piece::Text(b"m:11")],
        &[
            Piece::Text(b"found 1 <a> <b> \""),
            Piece::High,
            Piece::Text(b"\" 14 14 14 15"),
        ],
    ),
];

#[test]
fn one_file(rt: HostRuntime) -> Result<(), Fail> {
    let heap = rt.alloc();
    let mut file = Vec::new(heap);
    let mut out = Vec::new(heap);
    spell(&FILE, &mut file)?;
    let Ok(pages) = Pages::new(file.as_slice()) else {
        return Err(Fail::new("the file is refused"));
    };
    for (iri, line) in ROWS.iter() {
        out.clear();
        write_web(&pages, iri, &mut out)?;
        assert_eq!(rt; out.as_slice(), *line);
    }
    let mut iri = Vec::new(heap);
    let mut line = Vec::new(heap);
    for (iri_pieces, line_pieces) in LONG_ROWS.iter() {
        iri.clear();
        spell(iri_pieces, &mut iri)?;
        line.clear();
        spell(line_pieces, &mut line)?;
        out.clear();
        write_web(&pages, iri.as_slice(), &mut out)?;
        assert_eq!(rt; out.as_slice(), line.as_slice());
    }
    Ok(())
}
