use crate::{answer_hex_lines, answer_lines, bytes_of, unhex};
use std::test::Fail;

// Words, and what they spell.
static SPELLED: [(&str, &str); 4] = [("", ""), ("00", "\0"), ("7b7d", "{}"), ("c3a9", "é")];

// Words that spell nothing.
static NOT_SPELLED: [&str; 6] = ["0", "7B", "7b7", "7b 7d", "0g", "-"];

#[test]
fn spelled(rt: HostRuntime) -> Result<(), Fail> {
    for (word, bytes) in SPELLED.iter() {
        match unhex(rt.alloc(), word.as_bytes())? {
            Some(found) => assert_eq!(rt; found.as_slice(), bytes.as_bytes(), "{}", *word),
            None => return Err(Fail::new("it spells nothing")),
        }
    }
    Ok(())
}

#[test]
fn not_spelled(rt: HostRuntime) -> Result<(), Fail> {
    for word in NOT_SPELLED.iter() {
        assert!(rt; unhex(rt.alloc(), word.as_bytes())?.is_none(), "{}", *word);
    }
    Ok(())
}

#[test]
fn answered(rt: HostRuntime) -> Result<(), Fail> {
    let mut input: &[u8] = b"one\n\ntwo";
    let mut output = Vec::new(rt.alloc());
    answer_lines(rt.alloc(), &mut input, &mut output, |line, out| {
        out.push(b'<')?;
        out.extend_from_slice(line.as_bytes())?;
        out.push(b'>')?;
        Ok(())
    })?;
    assert_eq!(rt; output.as_slice(), b"<one>\n<>\n<two>\n".as_slice());
    Ok(())
}

#[test]
fn bytes_or_message(rt: HostRuntime) -> Result<(), Fail> {
    let bytes = bytes_of(rt.alloc(), b"c3a9", "it is not in hex")?;
    assert_eq!(rt; bytes.as_slice(), "é".as_bytes());
    match bytes_of(rt.alloc(), b"C3A9", "it is not in hex") {
        Ok(_) => return Err(Fail::new("it spells nothing")),
        Err(refusal) => {
            assert_eq!(rt; refusal.to_string(rt.alloc())?.as_str(), "it is not in hex");
        }
    }
    Ok(())
}

#[test]
fn hex_answered(rt: HostRuntime) -> Result<(), Fail> {
    let mut input: &[u8] = b"7b7d\n\nc3a9";
    let mut output = Vec::new(rt.alloc());
    answer_hex_lines(rt.alloc(), &mut input, &mut output, |text, out| {
        out.push(b'<')?;
        out.extend_from_slice(text)?;
        out.push(b'>')?;
        Ok(())
    })?;
    assert_eq!(rt; output.as_slice(), "<{}>\n<>\n<é>\n".as_bytes());
    Ok(())
}

#[test]
fn hex_refused(rt: HostRuntime) -> Result<(), Fail> {
    let mut input: &[u8] = b"7b7d\n7B7D\n7b7d";
    let mut output = Vec::new(rt.alloc());
    let answered = answer_hex_lines(rt.alloc(), &mut input, &mut output, |text, out| {
        out.extend_from_slice(text)?;
        Ok(())
    });
    assert!(rt; answered.is_err());
    assert_eq!(rt; output.as_slice(), b"{}\n".as_slice());
    Ok(())
}
