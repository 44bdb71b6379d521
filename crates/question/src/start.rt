// A reader at the start of a text, and when it is done.
ghost use Rattle.question.specs.Answers.{Fresh};
ghost use Rattle.std.specs.Prelude.{◌≡◌, ◌≤◌, length};

use crate::question::Question;
use crate::reader::Reader;
use tokens::{Lexeme, Token, next};

// At the end of no text.
pub(crate) const AT_REST: Lexeme = Lexeme {
    token: Token::End,
    start: 0,
    end: 0,
};

impl Reader {
    pub(crate) fn start(&mut self, text: &[u8])
        requires { length text.now ≤ 2048 }
        ensures { Fresh text.now self.new }
    {
        self.built.clear();
        let _ = self.built.text.extend_from_slice(text);
        self.depth = 0;
        self.full = false;
        self.next = next(self.built.text.as_slice(), 0);
    }

    // Gives what was read in place of another question.
    pub(crate) fn give(&mut self, place: &mut Question)
        ensures { place.new ≡ self.old.built }
    {
        std::mem::swap(place, &mut self.built);
        self.built.clear();
        self.next = AT_REST;
    }
}
