// Reads graph patterns. Each function reads one kind of the grammar, from the next token on.
ghost use Rattle.grammar.specs.Grammar.{means, is_end, is_group, is_groups, is_item, is_items, is_line};
ghost use Rattle.grammar.specs.Machine.{a};
ghost use Rattle.question.specs.Views.{view};
ghost use Rattle.question.specs.Outcomes.{Outcome, PatternRead, ReadEnd, ReadItem, ReadItems};
ghost use Rattle.question.specs.Within.{LeftThere};

use crate::node::{End, Line, PatternNode, Variable};
use crate::reader::Reader;
use grammar::Fault;
use tokens::Token;

impl Reader {
    #[cycle(group_reading)]
    pub(crate) fn group(&mut self) -> Result<usize, Fault>
        ensures { PatternRead is_group (λ t. means t) (view self.old) (view self.new) result }
    {
        self.expect(Token::OpenBrace)?;
        let inner = self.items()?;
        self.expect(Token::CloseBrace)?;
        Ok(self.or_empty(inner))
    }

    #[cycle(group_reading)]
    fn items(&mut self) -> Result<Option<usize>, Fault>
        ensures { Outcome (a is_items) (view self.old) (λ o. ReadItems (view self.old) (view self.new) o) result }
    {
        let mut left = None;
        while self.at_item() {
            left = Some(self.item(left)?);
        }
        Ok(left)
    }

    // One item more of a group, joined to what stands to the left of it.
    #[cycle(group_reading)]
    fn item(&mut self, left: Option<usize>) -> Result<usize, Fault>
        requires { LeftThere self.old left }
        ensures { Outcome (a is_item) (view self.old) (λ i. ReadItem left (view self.old) (view self.new) i) result }
    {
        match self.next.token {
            Token::Optional => {
                self.expect(Token::Optional)?;
                let left = self.or_empty(left);
                let right = self.group()?;
                Ok(self.add_pattern(PatternNode::Opt(left, right)))
            }
            Token::OpenBrace => {
                let right = self.groups()?;
                Ok(self.join(left, right))
            }
            _ => {
                let right = self.line()?;
                Ok(self.join(left, right))
            }
        }
    }

    // Groups parted by UNION; one alone is itself. Why it stays apart from `path` and `sequence` is said at the head of paths.rt.
    #[cycle(group_reading)]
    fn groups(&mut self) -> Result<usize, Fault>
        ensures { PatternRead is_groups (λ t. means t) (view self.old) (view self.new) result }
    {
        let mut left = self.group()?;
        while let Token::Union = self.next.token {
            self.expect(Token::Union)?;
            let right = self.group()?;
            left = self.add_pattern(PatternNode::Union(left, right));
        }
        Ok(left)
    }

    fn line(&mut self) -> Result<usize, Fault>
        ensures { PatternRead is_line (λ t. means t) (view self.old) (view self.new) result }
    {
        let subject = self.end()?;
        let path = self.path()?;
        let object = self.end()?;
        self.expect(Token::Dot)?;
        Ok(self.add_pattern(PatternNode::Line(Line {
            subject,
            path,
            object,
        })))
    }

    // An arm for each kind of term: of one for both no proof of the clause was found.
    fn end(&mut self) -> Result<End<usize>, Fault>
        ensures { Outcome (a is_end) (view self.old) (λ x. ReadEnd (view self.old) (view self.new) x) result }
    {
        match self.next.token {
            Token::Iri => {
                let iri = self.expect(Token::Iri)?;
                Ok(End::Term(iri))
            }
            Token::Literal => {
                let literal = self.expect(Token::Literal)?;
                Ok(End::Term(literal))
            }
            _ => {
                let number = self.expect(Token::Variable)?;
                Ok(End::Variable(Variable { number }))
            }
        }
    }
}
