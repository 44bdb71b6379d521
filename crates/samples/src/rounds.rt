ghost use Rattle.samples.specs.Rounds.{RoundByRound, OneCourse, FourDocumentsDecide};

// A walk over the four documents about feeders, round by round, and what its list rests on.
pub fn rounds_show_it()
    ensures rounds { RoundByRound }
    ensures course { OneCourse }
    ensures decide { FourDocumentsDecide }
{}
