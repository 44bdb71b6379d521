// What is kept can be relied on.
ghost use Rattle.store.specs.Laws.{RecordGrowsByOne, TriplesOnlyGrow, KnownTermsKeepTheirNumbers, UnfitChangesTheRecordAlone, SizesAddUp, FoundListsStandWhole, LimitsHold};

pub fn keeping_is_lawful()
    ensures entry { RecordGrowsByOne }
    ensures triples { TriplesOnlyGrow }
    ensures numbers { KnownTermsKeepTheirNumbers }
    ensures unfit { UnfitChangesTheRecordAlone }
    ensures sizes { SizesAddUp }
    ensures lists { FoundListsStandWhole }
    ensures limits { LimitsHold }
{}
