// A reader of questions: the next token, what limits need to know of the tokens before it, and the question as far as it was read.
ghost use Rattle.std.specs.Prelude.{◌≡◌, ◌<◌, ◌≤◌, false, length};
ghost use Rattle.room.specs.Items.{items};
ghost use Rattle.tokens.specs.Lexed.{said, final};

use crate::question::Question;
use tokens::Lexeme;

#[derive(Drop)]
pub struct Reader {
    pub(crate) next: Lexeme,
    // How many brackets are open.
    pub(crate) depth: usize,
    // There are more than 64 nodes: none is kept from then on.
    pub(crate) full: bool,
    // It has the whole text from the start.
    pub(crate) built: Question,
    ghost within: { next.end ≤ length (items built.text) },
    ghost last: { next.start ≤ next.end },
    ghost long: { final (said (items built.text) next) ≡ false → next.start < next.end },
    // Each term took a byte at least.
    ghost few: { length (items built.terms) ≤ next.start },
}
