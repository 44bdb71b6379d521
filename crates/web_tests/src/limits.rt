use pages::Pages;
use std::alloc::AllocError;
use std::test::Fail;
use telling::write_web;
use web::{Pair, Web};

const TAIL: &[u8] = b"\n@page <m:1>\n<a> <b> \"cd\" .";

// A file of so many bytes, with a page at its very end.
fn fill(length: usize, out: &mut Vec<u8>) -> Result<(), AllocError> {
    out.clear();
    for _ in TAIL.len()..length {
        out.push(b'x')?;
    }
    out.extend_from_slice(TAIL)
}

#[test]
fn longest_file(rt: HostRuntime) -> Result<(), Fail> {
    let heap = rt.alloc();
    let mut file = Vec::new(heap);
    let mut out = Vec::new(heap);
    fill(65536, &mut file)?;
    match Pages::new(file.as_slice()) {
        Err(_) => return Err(Fail::new("a file at the limit is refused")),
        Ok(pages) => write_web(&pages, b"m:1", &mut out)?,
    }
    assert_eq!(rt;
        out.as_slice(),
        b"found 1 <a> <b> \"cd\" 14 14 14 15".as_slice()
    );
    fill(65537, &mut file)?;
    let Err(refused) = Pages::new(file.as_slice()) else {
        return Err(Fail::new("a file over the limit is taken"));
    };
    assert!(rt; refused.number() == 16 && refused.length == 65537);
    Ok(())
}

// The term has 2 bytes, and a buffer's byte behind it stays.
#[test]
fn buffers(rt: HostRuntime) -> Result<(), Fail> {
    let Ok(pages) = Pages::new(TAIL) else {
        return Err(Fail::new("the file is refused"));
    };
    let mut buffer = *b"___";
    let Ok(written) = pages.read(b"m:1", 0, 3, &mut buffer) else {
        return Err(Fail::new("the object is refused"));
    };
    assert!(rt; written.kind.number() == 2 && written.length == 2);
    assert_eq!(rt; &buffer, b"cd_");
    let mut short = *b"_";
    let Err(unread) = pages.read(b"m:1", 0, 3, &mut short) else {
        return Err(Fail::new("two bytes fit into one"));
    };
    assert!(rt; unread.number() == 15);
    assert_eq!(rt; &short, b"_");
    // No such triple comes first.
    let Err(unread) = pages.read(b"m:1", 1, 3, &mut short) else {
        return Err(Fail::new("there is a second triple"));
    };
    assert!(rt; unread.number() == 14);
    Ok(())
}

const FIRST: &[u8] = b"@page <m:1>\n<a> <b> <c> .\n@page <m:2>\noops\n";

const SECOND: &[u8] =
    b"@page <m:1>\noops\n@page <m:2>\n<a> <b> <c> .\n@page <m:3>\n<d> <e> <f> .\n@page <m:4>\n\noops";

// An IRI, and what the pair of the two answers.
static PAIRED: [(&[u8], &[u8]); 5] = [
    (b"m:1", b"found 1 <a> <b> <c> 14 14 14 15"),
    (b"m:2", b"broken 1 4 14 14 14 14"),
    (b"m:3", b"found 1 <d> <e> <f> 14 14 14 15"),
    (b"m:4", b"broken 1 9 14 14 14 14"),
    (b"m:5", b"absent 14 14 14 14"),
];

#[test]
fn pairs(rt: HostRuntime) -> Result<(), Fail> {
    let heap = rt.alloc();
    let mut out = Vec::new(heap);
    let Ok(first) = Pages::new(FIRST) else {
        return Err(Fail::new("the first file is refused"));
    };
    let Ok(second) = Pages::new(SECOND) else {
        return Err(Fail::new("the second file is refused"));
    };
    let pair = Pair { first, second };
    for (iri, line) in PAIRED.iter() {
        out.clear();
        write_web(&pair, iri, &mut out)?;
        assert_eq!(rt; out.as_slice(), *line);
    }
    Ok(())
}
