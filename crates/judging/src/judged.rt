// The place of the question that may be walked.
ghost use Rattle.std.specs.Prelude.{◌≡◌, true};
ghost use Rattle.grammar.specs.Judged.{judged};
ghost use Rattle.grammar.specs.Numbered.{asks};
ghost use Rattle.question.specs.Asking.{asked};

use question::Question;

// It holds a bounded question at any time, the empty group at first.
#[derive(Drop)]
pub struct Judged {
    pub(crate) question: Question,
    ghost bounded: { judged (asks (asked question)) 0 ≡ true },
}
