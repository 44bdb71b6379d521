// The memory of a question, reserved once.
ghost use Rattle.std.specs.Prelude.{◌≡◌, IfOk};
ghost use Rattle.question.specs.Asking.{asked, nothing_asked};

use crate::node::PatternNode;
use crate::question::Question;
use room::Room;
use std::alloc::{AllocError, Global};

impl Question {
    // The empty group.
    pub fn reserve(heap: Global) -> Result<Question, AllocError>
        ensures { IfOk result (λ q. (asked q ≡ nothing_asked) × (q.nodes ≡ 1)) }
    {
        let text = Room::reserve(heap)?;
        let terms = Room::reserve(heap)?;
        let names = Room::reserve(heap)?;
        let paths = Room::reserve(heap)?;
        let mut patterns = Room::reserve(heap)?;
        let _ = patterns.push(PatternNode::Empty);
        Ok(Question {
            text,
            terms,
            names,
            paths,
            patterns,
            root: 0,
            nodes: 1,
        })
    }
}
