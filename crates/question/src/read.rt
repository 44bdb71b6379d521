// Reads a whole text.
ghost use Rattle.std.specs.Prelude.{◌≡◌, ◌≤◌, length, IfOk, OnOk};
ghost use Rattle.grammar.specs.Syntax.{nodes as counted};
ghost use Rattle.question.specs.Answers.{Answer, Verdict, held};
ghost use Rattle.question.specs.Asking.{asked, nothing_asked};

use crate::draft::Draft;
use crate::question::Question;
use crate::reader::Reader;
use crate::start::AT_REST;
use grammar::{Fault, Reason, Refusal};
use std::alloc::{AllocError, Global};
use tokens::Token;

impl Draft {
    // A draft of the empty group. Only this call can fail for want of memory.
    pub fn new(heap: Global) -> Result<Draft, AllocError>
        ensures { IfOk result (λ d. held d ≡ nothing_asked) }
    {
        let question = Question::reserve(heap)?;
        let built = Question::reserve(heap)?;
        Ok(Draft {
            question,
            reader: Reader {
                next: AT_REST,
                depth: 0,
                full: false,
                built,
            },
        })
    }

    // Reads a text in place of the question, or tells how it is refused and leaves the question.
    pub fn read(&mut self, text: &[u8]) -> Result<(), Refusal>
        ensures { Answer text.now (held self.old) result (held self.new) }
    {
        if text.len() > 2048 {
            return Err(Refusal::TextTooLong);
        }
        // By a `match` and no `?`: with `?` the edit that gives a half-read draft away falls by a name that a proof file misses, and edits are to
        // fall by a fact (DECISIONS.md, under Forms).
        match self.reader.question(text) {
            Ok(()) => {
                self.reader.give(&mut self.question);
                Ok(())
            }
            Err(refusal) => Err(refusal),
        }
    }
}

impl Reader {
    fn question(&mut self, text: &[u8]) -> Result<(), Refusal>
        requires { length text.now ≤ 2048 }
        ensures verdict { Verdict text.now result (asked self.new.built) }
        ensures nodes { OnOk result (self.new.built.nodes ≡ counted (asked self.new.built).pattern) }
    {
        self.start(text);
        let root = self.group()?;
        if self.next.token != Token::End {
            return Err(Refusal::At(Fault {
                reason: Reason::NoQuestion,
                at: self.next.start,
            }));
        }
        if self.full {
            return Err(Refusal::TooManyNodes);
        }
        self.built.root = root;
        Ok(())
    }
}
