// One token of a sort that the grammar has at its place.
ghost use Rattle.std.specs.Prelude.{◌≡◌, false, []};
ghost use Rattle.tokens.specs.Words.{saying};
ghost use Rattle.tokens.specs.Lexed.{final};
ghost use Rattle.question.specs.Views.{view};
ghost use Rattle.question.specs.Outcomes.{Takes};

use crate::reader::Reader;
use grammar::{Fault, Reason};
use tokens::{Lexeme, Token, next};

impl Reader {
    // Passes the next token, which is to be of this sort, and tells the number of a term or a variable. Of another sort it tells 0, which no caller
    // reads: those who want a number name the sort, and an Option would ask them to unwrap what is always there.
    pub(crate) fn expect(&mut self, token: Token) -> Result<usize, Fault>
        requires { final (saying token []) ≡ false }
        ensures { Takes token (view self.old) (view self.new) result }
    {
        let passed = self.next;
        let at = self.next.start;
        if self.next.token != token {
            return Err(Fault {
                reason: Reason::NoQuestion,
                at,
            });
        }
        // Nothing is next until the token is within its limits: a refused text isn't cut any further.
        self.next = Lexeme {
            token: Token::End,
            start: passed.end,
            end: passed.end,
        };
        let number = self.admit(passed).map_err(|reason| Fault { reason, at })?;
        self.next = next(self.built.text.as_slice(), passed.end);
        Ok(number)
    }
}
