use crate::lexer::next;
use crate::token::{Lexeme, Token};

// A text, and its first token with the token's offsets.
const ROWS: [(&str, Token, usize, usize); 12] = [
    // A variable is as long as it can be.
    ("?xUNION {", Token::Variable, 0, 7),
    ("? x", Token::Wrong, 0, 1),
    // A keyword is a whole word, in capitals.
    ("\tUNION{", Token::Union, 1, 6),
    ("OPTIONAL", Token::Optional, 0, 8),
    ("OPTIONALx", Token::Wrong, 0, 9),
    ("Union", Token::Wrong, 0, 5),
    // A mark that is not closed is wrong where it stands.
    ("  \"a\\\"", Token::Wrong, 2, 3),
    ("\"\"", Token::Literal, 0, 2),
    ("<>", Token::Wrong, 0, 1),
    ("<a>.", Token::Iri, 0, 3),
    (" ^<a>", Token::Caret, 1, 2),
    // The end stands after the last blank.
    (" \r\n", Token::End, 3, 3),
];

#[test]
fn first_tokens(rt: HostRuntime) {
    for (text, token, start, end) in ROWS {
        let found = next(text.as_bytes(), 0);
        assert!(rt; found == Lexeme { token, start, end }, "{}", text);
    }
}
