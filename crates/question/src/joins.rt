// What stands to the left in a group, and what is made of it.
ghost use Rattle.std.specs.Prelude.{◌≡◌};
ghost use Rattle.question.specs.Views.{view};
ghost use Rattle.question.specs.Outcomes.{Emptied, Joined, begins_item};
ghost use Rattle.question.specs.Within.{LeftThere, PatternThere};

use crate::node::PatternNode;
use crate::reader::Reader;
use tokens::Token;

impl Reader {
    // The next token begins an item of a group.
    pub(crate) fn at_item(&self) -> bool
        ensures { result ≡ begins_item self.now.next.token }
    {
        matches!(
            self.next.token,
            Token::Iri | Token::Literal | Token::Variable | Token::Optional | Token::OpenBrace
        )
    }

    // Nothing is the empty pattern.
    pub(crate) fn or_empty(&mut self, left: Option<usize>) -> usize
        ensures { Emptied left (view self.old) (view self.new) result }
    {
        match left {
            Some(i) => i,
            None => self.add_pattern(PatternNode::Empty),
        }
    }

    // What opens a group stands alone; anything else is joined to all before it.
    pub(crate) fn join(&mut self, left: Option<usize>, right: usize) -> usize
        requires left { LeftThere self.old left }
        requires right { PatternThere self.old right }
        ensures { Joined left right (view self.old) (view self.new) result }
    {
        match left {
            Some(i) => self.add_pattern(PatternNode::And(i, right)),
            None => right,
        }
    }
}
