// The limits on a token that the grammar has at its place, and what is kept of it.
ghost use Rattle.std.specs.Prelude.{◌≡◌, ◌+◌, ◌-◌, ◌<◌, false, length};
ghost use Rattle.room.specs.Items.{items};
ghost use Rattle.tokens.specs.Words.{name, open_brace, open_paren};
ghost use Rattle.tokens.specs.Lexed.{said};
ghost use Rattle.grammar.specs.Limits.{known};
ghost use Rattle.question.specs.Arena.{name_of};
ghost use Rattle.question.specs.Views.{text_of, seen_of};
ghost use Rattle.question.specs.Admission.{Admission, Opened, Passed, term_word};

use crate::reader::Reader;
use crate::span::{Span, TermSpan};
use grammar::Reason;
use terms::Kind;
use tokens::{Lexeme, Token};

impl Reader {
    // Keeps what a token says, unless it is over a limit, and tells the number of a term or a variable.
    pub(crate) fn admit(&mut self, passed: Lexeme) -> Result<usize, Reason>
        requires { Passed passed self.old }
        ensures { Admission (said (text_of self.old) passed) self.old self.new result }
    {
        let Lexeme { token, start, end } = passed;
        // A term stands between two marks, and a name behind one.
        let term = Span {
            start: start + 1,
            end: end - 1,
        };
        let name = Span {
            start: start + 1,
            end,
        };
        match token {
            Token::Iri => self.admit_term(Kind::Iri, term),
            Token::Literal => self.admit_term(Kind::Literal, term),
            Token::Variable => self.admit_name(name),
            Token::OpenBrace | Token::OpenParen => self.open_bracket(),
            Token::CloseBrace | Token::CloseParen => Ok(self.close_bracket()),
            _ => Ok(0),
        }
    }

    fn open_bracket(&mut self) -> Result<usize, Reason>
        ensures { Opened self.old self.new result }
    {
        if self.depth >= 16 {
            return Err(Reason::TooDeep);
        }
        self.depth += 1;
        Ok(0)
    }

    fn close_bracket(&mut self) -> usize
        ensures depth { self.new.depth ≡ self.old.depth - 1 }
        ensures next { self.new.next ≡ self.old.next }
        ensures full { self.new.full ≡ self.old.full }
        ensures built { self.new.built ≡ self.old.built }
    {
        self.depth = self.depth.saturating_sub(1);
        0
    }

    fn admit_term(&mut self, kind: Kind, span: Span) -> Result<usize, Reason>
        requires { length (items self.old.built.terms) < self.old.next.start }
        ensures { Admission (term_word kind (name_of (text_of self.old) span)) self.old self.new result }
    {
        if span.of(self.built.text.as_slice()).len() > 128 {
            return Err(Reason::TooLong);
        }
        let number = self.built.terms.len();
        let _ = self.built.terms.push(TermSpan { kind, span });
        Ok(number)
    }

    fn admit_name(&mut self, span: Span) -> Result<usize, Reason>
        ensures { Admission (name (name_of (text_of self.old) span)) self.old self.new result }
    {
        match self.find_name(span) {
            Some(number) => Ok(number),
            None => self.add_name(span),
        }
    }

    fn add_name(&mut self, span: Span) -> Result<usize, Reason>
        requires { known (name_of (text_of self.old) span) (seen_of self.old).names ≡ false }
        ensures { Admission (name (name_of (text_of self.old) span)) self.old self.new result }
    {
        let number = self.built.names.len();
        if number >= 8 {
            return Err(Reason::TooManyVariables);
        }
        if span.of(self.built.text.as_slice()).len() > 16 {
            return Err(Reason::TooLong);
        }
        let _ = self.built.names.push(span);
        Ok(number)
    }
}
