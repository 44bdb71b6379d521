// The place that questions are read into.
ghost use Rattle.std.specs.Prelude.{◌≡◌};
ghost use Rattle.grammar.specs.Syntax.{nodes as counted};
ghost use Rattle.question.specs.Asking.{asked};

use crate::question::Question;
use crate::reader::Reader;

// It holds a question at any time, the empty group at first. A text is read in the reader's own memory.
#[derive(Drop)]
pub struct Draft {
    pub(crate) question: Question,
    pub(crate) reader: Reader,
    ghost nodes: { question.nodes ≡ counted (asked question).pattern },
}
