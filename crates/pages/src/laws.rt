// What a page file means depends on little of it.
ghost use Rattle.pages.specs.Laws.{CutBeforeHash, BeginsWithItsOpening, OnlyItsLines, SayingsDecide, LastFeed, FurtherPage, FoundWithItsTriples, FewTriples};
ghost use Rattle.pages.specs.Samples.{Sampled};

pub fn pages_are_lawful()
    ensures cut { CutBeforeHash }
    ensures begins { BeginsWithItsOpening }
    ensures own { OnlyItsLines }
    ensures sayings { SayingsDecide }
    ensures feed { LastFeed }
    ensures further { FurtherPage }
    ensures found { FoundWithItsTriples }
    ensures few { FewTriples }
    ensures sample { Sampled }
{}
