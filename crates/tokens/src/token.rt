// The sorts of token. What an IRI, a literal or a variable says is found by the token's place in the text.
#[derive(Clone, Copy, PartialEq, Eq)]
pub enum Token {
    Iri,
    Literal,
    Variable,
    OpenBrace,
    CloseBrace,
    OpenParen,
    CloseParen,
    Dot,
    Bar,
    Slash,
    Caret,
    Star,
    Bang,
    Optional,
    Union,
    // No token begins so.
    Wrong,
    // The text's end.
    End,
}

// A token with the offsets of its first byte and of the byte after its last.
#[derive(Clone, Copy, PartialEq, Eq)]
pub struct Lexeme {
    pub token: Token,
    pub start: usize,
    pub end: usize,
}
