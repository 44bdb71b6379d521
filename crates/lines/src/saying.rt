// What a line of a page file says.
ghost use Rattle.std.specs.Prelude.{◌≡◌, Some, None, MatchResult};
ghost use Rattle.lines.specs.Readings.{opening as opened, says, statement as stated_by, unreadable};
ghost use Rattle.lines.specs.Steps.{said_of, triple_of};

use crate::cursor::Line;
use crate::reader::{BadLine, Reader};
use terms::Kind;

// The terms of a triple, without their marks. Subject and predicate are IRIs.
#[derive(Clone, Copy)]
pub struct Stated<'a> {
    pub subject: &'a [u8],
    pub predicate: &'a [u8],
    pub kind: Kind,
    pub object: &'a [u8],
}

#[derive(Clone, Copy)]
pub enum Saying<'a> {
    Nothing,
    Opens(&'a [u8]),
    States(Stated<'a>),
}

// The address of the page that a line `@page <IRI>` opens.
pub fn opening<'a>(line: Line<'a>) -> Result<&'a [u8], BadLine>
    ensures { MatchResult result (λ a. opened line.entry.bytes.now ≡ Some a.now) (λ e. (opened line.entry.bytes.now ≡ None) × (e.line ≡ line.entry.number)) }
{
    let reader = Reader {
        rest: line.bytes,
        line: line.number,
    };
    let address = reader.text(b"@page ")?.term(Kind::Iri)?;
    address.behind.end()?;
    Ok(address.bytes)
}

// The triple that a line `<s> <p> o .` states.
pub fn statement<'a>(line: Line<'a>) -> Result<Stated<'a>, BadLine>
    ensures { MatchResult result (λ s. stated_by line.entry.bytes.now ≡ Some (triple_of s)) (λ e. (stated_by line.entry.bytes.now ≡ None) × (e.line ≡ line.entry.number)) }
{
    let reader = Reader {
        rest: line.bytes,
        line: line.number,
    };
    let subject = reader.named()?;
    let predicate = subject.behind.named()?;
    let kind = predicate.behind.kind();
    let object = predicate.behind.term(kind)?;
    let last = object.behind.text(b" .")?;
    last.end()?;
    Ok(Stated {
        subject: subject.bytes,
        predicate: predicate.bytes,
        kind,
        object: object.bytes,
    })
}

// A line that begins with `@` can only be an opening, and no other line is one.
pub fn said<'a>(line: Line<'a>) -> Result<Saying<'a>, BadLine>
    ensures { MatchResult result (λ s. says line.entry.bytes.now ≡ said_of s) (λ e. (says line.entry.bytes.now ≡ unreadable) × (e.line ≡ line.entry.number)) }
{
    match line.bytes {
        [] => Ok(Saying::Nothing),
        [b'@', ..] => Ok(Saying::Opens(opening(line)?)),
        _ => Ok(Saying::States(statement(line)?)),
    }
}
