// The reader of one line, from its front on. What it dislikes goes up by `?` to whoever reads the page.
ghost use Rattle.std.specs.Prelude.{◌≡◌, [], ◌∷◌, Some, MatchResult};
ghost use Rattle.lines.specs.Readings.{behind, ended, marked, named as named_by, object_kind};
ghost use Rattle.lines.specs.Steps.{Onward, Past, Stuck};

use crate::runs::term_run;
use terms::Kind;

// A line that cannot be read.
#[derive(Clone, Copy)]
pub struct BadLine {
    pub line: u64,
}

// A term's bytes without its marks, and the reader behind it.
#[derive(Clone, Copy)]
pub struct Piece<'a> {
    pub bytes: &'a [u8],
    pub behind: Reader<'a>,
}

// What is left of a line, and the line's number.
#[derive(Clone, Copy)]
pub struct Reader<'a> {
    pub rest: &'a [u8],
    pub line: u64,
}

impl<'a> Reader<'a> {
    fn sign(self, b: u8) -> Result<Reader<'a>, BadLine>
        ensures { MatchResult result (Onward (behind (b ∷ []) self.entry.rest.now) self.entry) (Stuck (behind (b ∷ []) self.entry.rest.now) self.entry) }
    {
        match self.rest {
            [first, rest @ ..] if *first == b => Ok(Reader {
                rest,
                line: self.line,
            }),
            _ => Err(BadLine { line: self.line }),
        }
    }

    // The reader behind a text.
    pub fn text(self, text: &[u8]) -> Result<Reader<'a>, BadLine>
        ensures { MatchResult result (Onward (behind text.now self.entry.rest.now) self.entry) (Stuck (behind text.now self.entry.rest.now) self.entry) }
    {
        let mut reader = self;
        for b in text {
            reader = reader.sign(*b)?;
        }
        Ok(reader)
    }

    // The term of a kind that stands here in its marks.
    pub fn term(self, kind: Kind) -> Result<Piece<'a>, BadLine>
        ensures { MatchResult result (Past (marked kind self.entry.rest.now) self.entry) (Stuck (marked kind self.entry.rest.now) self.entry) }
    {
        let inner = self.sign(kind.opening())?;
        let length = term_run(inner.rest, kind);
        if !kind.fits(length) {
            return Err(BadLine { line: self.line });
        }
        let (bytes, rest) = inner.rest.split_at(length);
        let last = Reader {
            rest,
            line: self.line,
        };
        let behind = last.sign(kind.closing())?;
        Ok(Piece { bytes, behind })
    }

    // An IRI and the space behind it.
    pub fn named(self) -> Result<Piece<'a>, BadLine>
        ensures { MatchResult result (Past (named_by self.entry.rest.now) self.entry) (Stuck (named_by self.entry.rest.now) self.entry) }
    {
        let iri = self.term(Kind::Iri)?;
        let behind = iri.behind.text(b" ")?;
        Ok(Piece {
            bytes: iri.bytes,
            behind,
        })
    }

    // The kind of the term that a mark here begins.
    pub fn kind(self) -> Kind
        ensures { result ≡ object_kind self.entry.rest.now }
    {
        match self.rest {
            [b'"', ..] => Kind::Literal,
            _ => Kind::Iri,
        }
    }

    pub fn end(self) -> Result<(), BadLine>
        ensures { MatchResult result (λ _. ended self.entry.rest.now ≡ Some []) (Stuck (ended self.entry.rest.now) self.entry) }
    {
        match self.rest {
            [] => Ok(()),
            _ => Err(BadLine { line: self.line }),
        }
    }
}
