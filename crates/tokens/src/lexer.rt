// One token at a time, straight from the bytes of the text.
ghost use Rattle.std.specs.Prelude.{◌≡◌, ◌+◌, ◌<◌, true, length, drop, slice_index};
ghost use Rattle.terms.specs.Bytes.{leads, word_byte};
ghost use Rattle.tokens.specs.Words.{sort};
ghost use Rattle.tokens.specs.Lexed.{First, iri_piece, literal_piece, name_piece, word_piece, lexeme, signs, keyword as keyword_of};
ghost use Rattle.tokens.specs.Pieces.{Reads};
ghost use Rattle.tokens.specs.declared.token.Token.TheVariants.{Wrong};

use crate::runs::{Class, run_end};
use crate::token::{Lexeme, Token};
use terms::is_word_byte;

// Does the byte b stand at an offset?
fn stands(text: &[u8], at: usize, b: u8) -> bool
    ensures { result ≡ leads b (drop at text.now) }
{
    text.get(at) == Some(&b)
}

fn keyword(word: &[u8]) -> Token
    ensures { result ≡ sort (keyword_of word.now) }
{
    if word == b"OPTIONAL".as_slice() {
        Token::Optional
    } else if word == b"UNION".as_slice() {
        Token::Union
    } else {
        Token::Wrong
    }
}

// The token that is one byte.
fn sign(b: u8) -> Token
    ensures { result ≡ sort (signs b) }
{
    match b {
        b'{' => Token::OpenBrace,
        b'}' => Token::CloseBrace,
        b'(' => Token::OpenParen,
        b')' => Token::CloseParen,
        b'.' => Token::Dot,
        b'|' => Token::Bar,
        b'/' => Token::Slash,
        b'^' => Token::Caret,
        b'*' => Token::Star,
        b'!' => Token::Bang,
        _ => Token::Wrong,
    }
}

// A place in a text where a byte stands.
#[derive(Clone, Copy)]
struct Place<'a> {
    text: &'a [u8],
    start: usize,
    ghost inside: { start < length text.now },
}

impl<'a> Place<'a> {
    // A byte that begins no token.
    fn stray(self) -> Lexeme
        ensures { result ≡ record { token = Wrong; start = self.entry.start; end = self.entry.start + 1 } }
    {
        Lexeme {
            token: Token::Wrong,
            start: self.start,
            end: self.start + 1,
        }
    }

    // The IRI whose `<` stands here. No IRI is empty, while a literal may be. One function of both would be told the class, the mark, the sort and
    // whether it may be empty, and be no plainer.
    fn iri(self) -> Lexeme
        ensures { Reads self.entry.text.now self.entry.start (iri_piece (drop (self.entry.start + 1) self.entry.text.now)) result }
    {
        let end = run_end(self.text, self.start + 1, Class::Iri);
        if end > self.start + 1 && stands(self.text, end, b'>') {
            Lexeme {
                token: Token::Iri,
                start: self.start,
                end: end + 1,
            }
        } else {
            self.stray()
        }
    }

    // The literal whose first quote stands here.
    fn literal(self) -> Lexeme
        ensures { Reads self.entry.text.now self.entry.start (literal_piece (drop (self.entry.start + 1) self.entry.text.now)) result }
    {
        let end = run_end(self.text, self.start + 1, Class::Literal);
        if stands(self.text, end, b'"') {
            Lexeme {
                token: Token::Literal,
                start: self.start,
                end: end + 1,
            }
        } else {
            self.stray()
        }
    }

    // The variable whose `?` stands here.
    fn variable(self) -> Lexeme
        ensures { Reads self.entry.text.now self.entry.start (name_piece (drop (self.entry.start + 1) self.entry.text.now)) result }
    {
        let end = run_end(self.text, self.start + 1, Class::Word);
        if end > self.start + 1 {
            Lexeme {
                token: Token::Variable,
                start: self.start,
                end,
            }
        } else {
            self.stray()
        }
    }

    // The word that begins here, a keyword if it is one whole.
    fn word(self) -> Lexeme
        requires { word_byte (slice_index self.text.now self.start) ≡ true }
        ensures { Reads self.entry.text.now self.entry.start (word_piece (drop self.entry.start self.entry.text.now)) result }
    {
        let end = run_end(self.text, self.start, Class::Word);
        Lexeme {
            token: keyword(&self.text[self.start..end]),
            start: self.start,
            end,
        }
    }

    // The token that begins here, where no blank stands.
    fn token(self) -> Lexeme
        ensures { Reads self.entry.text.now self.entry.start (lexeme (slice_index self.entry.text.now self.entry.start) (drop (self.entry.start + 1) self.entry.text.now)) result }
    {
        match self.text[self.start] {
            b'<' => self.iri(),
            b'"' => self.literal(),
            b'?' => self.variable(),
            b if is_word_byte(b) => self.word(),
            b => Lexeme {
                token: sign(b),
                start: self.start,
                end: self.start + 1,
            },
        }
    }
}

// The first token at `at` or after the blanks there. Past the text's end there is only its end.
pub fn next(text: &[u8], at: usize) -> Lexeme
    ensures { First text.now at result }
{
    let start = run_end(text, at, Class::Blank);
    if start < text.len() {
        Place { text, start }.token()
    } else {
        Lexeme {
            token: Token::End,
            start,
            end: start,
        }
    }
}
