// What a question says, part by part.
ghost use Rattle.std.specs.Prelude.{◌≡◌, length};
ghost use Rattle.room.specs.Items.{items};
ghost use Rattle.grammar.specs.Syntax.{nodes as counted};
ghost use Rattle.question.specs.Answers.{Told, held, term_told};
ghost use Rattle.question.specs.Asking.{asked};

use crate::draft::Draft;
use crate::node::{PathNode, PatternNode};
use crate::question::Question;
use terms::Kind;

impl Draft {
    pub fn question(&self) -> &Question
        ensures { result.now ≡ self.now.question }
    {
        &self.question
    }

    // How many nodes the question has.
    pub fn nodes(&self) -> usize
        ensures { result ≡ counted (held self.now).pattern }
    {
        self.question.nodes
    }
}

impl Question {
    // How many nodes were counted. No index of a node is as large.
    pub fn nodes(&self) -> usize
        ensures { result ≡ self.now.nodes }
    {
        self.nodes
    }

    // The index of the whole pattern.
    pub fn root(&self) -> usize
        ensures { result ≡ self.now.root }
    {
        self.root
    }

    pub fn variables(&self) -> usize
        ensures { result ≡ length (asked self.now).names }
    {
        self.names.len()
    }

    // The name of a variable, by its number.
    pub fn name(&self, number: usize) -> Option<&[u8]>
        ensures { Told (λ x y. x.now ≡ y) (asked self.now).names number result }
    {
        let name = self.names.as_slice().get(number)?;
        Some(name.of(self.text.as_slice()))
    }

    // How many terms the text has, as often as they stand there.
    pub fn terms(&self) -> usize
        ensures { result ≡ length (asked self.now).terms }
    {
        self.terms.len()
    }

    // A term's kind and bytes, by its number.
    pub fn term(&self, number: usize) -> Option<(Kind, &[u8])>
        ensures { Told (λ x y. term_told x.0 x.1.now ≡ y) (asked self.now).terms number result }
    {
        let term = self.terms.as_slice().get(number)?;
        Some((term.kind, term.span.of(self.text.as_slice())))
    }

    pub fn path(&self, index: usize) -> Option<PathNode>
        ensures { Told (λ x y. x ≡ y) (items self.now.paths) index result }
    {
        self.paths.as_slice().get(index).copied()
    }

    pub fn pattern(&self, index: usize) -> Option<PatternNode>
        ensures { Told (λ x y. x ≡ y) (items self.now.patterns) index result }
    {
        self.patterns.as_slice().get(index).copied()
    }
}
