// What a text asks, or why it is refused, is settled by the definitions.
ghost use Rattle.grammar.specs.Bounded.{BoundedByMore, ExchangeKeepsBounds, RegroupingCanUnbind};
ghost use Rattle.grammar.specs.Judged.{MaskIsSure, JudgingDecides, FirstSideDecides};
ghost use Rattle.grammar.specs.Numbered.{NumbersAreFaithful};
ghost use Rattle.grammar.specs.Walkable.{EndsDecide, FirstPartDecides};
ghost use Rattle.grammar.specs.Reading.{OneTree, OneQuestion, OneRefusal, NotBoth, EveryText};

pub fn reading_is_exact()
    ensures tree { OneTree }
    ensures question { OneQuestion }
    ensures refusal { OneRefusal }
    ensures apart { NotBoth }
    ensures every { EveryText }
{}

// A question's variables go by name or by number.
pub fn numbers_are_faithful()
    ensures { NumbersAreFaithful }
{}

// Which questions are bounded does not depend on the order of sides, and can depend on their grouping. Masks decide it.
pub fn bounds_are_lawful()
    ensures more { BoundedByMore }
    ensures exchange { ExchangeKeepsBounds }
    ensures regroup { RegroupingCanUnbind }
    ensures ends { EndsDecide }
    ensures mask { MaskIsSure }
    ensures verdict { JudgingDecides }
    ensures part { FirstPartDecides }
    ensures side { FirstSideDecides }
{}
