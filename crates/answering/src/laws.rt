// That what an evaluation computes is what the definitions say.
ghost use Rattle.answering.specs.Promises.{EvaluationIsRight, EvaluationOverDocuments};

// An evaluation of a bounded question over a graph gives up exactly where the plan has too many possible solutions somewhere; otherwise its table
// has each possible solution once, with its weight, and it has read exactly the IRIs that the plan needs.
pub fn evaluation_is_right<A, S>()
    ensures graph { EvaluationIsRight A S }
    ensures documents { EvaluationOverDocuments A S }
{}
