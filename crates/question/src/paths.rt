// Reads property paths. Each function reads one kind of the grammar, from the next token on. `path`, `sequence` and `groups` stay apart though
// they look alike: one function of them would be told by an enum of three which it is, and match on it for the sign, the part and the node.
ghost use Rattle.std.specs.Prelude.{◌+◌, ◌-◌, ◌≤◌, length};
ghost use Rattle.room.specs.Items.{items};
ghost use Rattle.question.specs.declared.node.PathNode.TheVariants.{Negated};
ghost use Rattle.grammar.specs.Grammar.{means, is_base, is_members, is_negation, is_path, is_sequence, is_step, is_suffix};
ghost use Rattle.grammar.specs.Machine.{a};
ghost use Rattle.question.specs.Views.{view};
ghost use Rattle.question.specs.Outcomes.{Outcome, PathRead, PlacedPath, ReadMembers, ReadSuffix};
ghost use Rattle.question.specs.Within.{PathThere};

use crate::node::PathNode;
use crate::reader::Reader;
use grammar::Fault;
use tokens::Token;

impl Reader {
    #[cycle(path_reading)]
    pub(crate) fn path(&mut self) -> Result<usize, Fault>
        ensures { PathRead is_path (λ t. means t) (view self.old) (view self.new) result }
    {
        let mut left = self.sequence()?;
        while let Token::Bar = self.next.token {
            self.expect(Token::Bar)?;
            let right = self.sequence()?;
            left = self.add_path(PathNode::Alternative(left, right), 1);
        }
        Ok(left)
    }

    #[cycle(path_reading)]
    fn sequence(&mut self) -> Result<usize, Fault>
        ensures { PathRead is_sequence (λ t. means t) (view self.old) (view self.new) result }
    {
        let mut left = self.step()?;
        while let Token::Slash = self.next.token {
            self.expect(Token::Slash)?;
            let right = self.step()?;
            left = self.add_path(PathNode::Sequence(left, right), 1);
        }
        Ok(left)
    }

    // The inverse covers a base with its star.
    #[cycle(path_reading)]
    fn step(&mut self) -> Result<usize, Fault>
        ensures { PathRead is_step (λ t. means t) (view self.old) (view self.new) result }
    {
        match self.next.token {
            Token::Caret => {
                self.expect(Token::Caret)?;
                let base = self.base()?;
                let inner = self.suffix(base)?;
                Ok(self.add_path(PathNode::Inverse(inner), 1))
            }
            _ => {
                let base = self.base()?;
                self.suffix(base)
            }
        }
    }

    // A star behind a base, if there is one.
    fn suffix(&mut self, base: usize) -> Result<usize, Fault>
        requires { PathThere self.old base }
        ensures { Outcome (a is_suffix) (view self.old) (λ i. ReadSuffix base (view self.old) (view self.new) i) result }
    {
        match self.next.token {
            Token::Star => {
                self.expect(Token::Star)?;
                Ok(self.add_path(PathNode::Star(base), 1))
            }
            _ => Ok(base),
        }
    }

    #[cycle(path_reading)]
    fn base(&mut self) -> Result<usize, Fault>
        ensures { PathRead is_base (λ t. means t) (view self.old) (view self.new) result }
    {
        match self.next.token {
            Token::Bang => {
                self.expect(Token::Bang)?;
                self.negation()
            }
            Token::OpenParen => {
                self.expect(Token::OpenParen)?;
                let inner = self.path()?;
                self.expect(Token::CloseParen)?;
                Ok(inner)
            }
            _ => {
                let term = self.expect(Token::Iri)?;
                Ok(self.add_path(PathNode::Link(term), 1))
            }
        }
    }

    // One predicate or several, that a path is not to have.
    fn negation(&mut self) -> Result<usize, Fault>
        ensures { PathRead is_negation (λ t. means t) (view self.old) (view self.new) result }
    {
        let first = self.built.terms.len();
        match self.next.token {
            Token::OpenParen => {
                self.expect(Token::OpenParen)?;
                self.expect(Token::Iri)?;
                self.members()?;
                Ok(self.add_negated(first))
            }
            _ => {
                self.expect(Token::Iri)?;
                Ok(self.add_negated(first))
            }
        }
    }

    // The members of a negated set behind its first, and its closing bracket.
    fn members(&mut self) -> Result<(), Fault>
        ensures { Outcome (a is_members) (view self.old) (λ _. ReadMembers (view self.old) (view self.new)) result }
    {
        while let Token::Bar = self.next.token {
            self.expect(Token::Bar)?;
            self.expect(Token::Iri)?;
        }
        self.expect(Token::CloseParen)?;
        Ok(())
    }

    // A negated set of the terms from the first on.
    fn add_negated(&mut self, first: usize) -> usize
        requires { first ≤ length (items self.old.built.terms) }
        ensures { PlacedPath (view self.old) (view self.new) (Negated first (length (items self.old.built.terms) - first)) (length (items self.old.built.terms) - first + 1) result }
    {
        let count = self.built.terms.len() - first;
        self.add_path(PathNode::Negated { first, count }, count + 1)
    }
}
