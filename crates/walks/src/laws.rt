ghost use Rattle.walks.specs.Kept.{PossibleIsKept};
ghost use Rattle.walks.specs.Translated.{NamesAreFree, CrowdsAreTranslated};
ghost use Rattle.walks.specs.Shelves.{SameShelf, EveryShelfHasItsUniverse, RecordSuffices, RecordDecides, ShelvesGrow, LookedUpStaysNeeded};
ghost use Rattle.walks.specs.Promises.{WalkIsComplete, NothingElseMatters, WalksOnlyGrow, NeedsAreMet, NeedsAreListed};

// What is needed suffices: over the documents that a walk needs, a bounded question has the solutions of the whole Web.
pub fn walk_is_complete<A>()
    ensures { WalkIsComplete A }
{}

// Documents that are not needed change nothing.
pub fn nothing_else_matters<A>()
    ensures { NothingElseMatters A }
{}

// With more documents a walk needs all that it needed, and what it needs was met before.
pub fn walks_only_grow<A>()
    ensures grow { WalksOnlyGrow A }
    ensures met { NeedsAreMet A }
{}

// What is needed can be listed.
pub fn needs_are_listed<A>()
    ensures { NeedsAreListed A }
{}

// Under other names for its terms, as numbers, a question has its verdict, its rows and weights and its needs under those names.
pub fn names_are_free<A, B>()
    ensures { NamesAreFree A B }
{}

// And too many possible solutions under those names exactly where it has too many.
pub fn crowds_are_translated<A, B>()
    ensures { CrowdsAreTranslated A B }
{}

// What a Web tells at the recorded addresses makes the shelf, and the shelf has its universe.
pub fn record_makes_the_shelf<A>()
    ensures same { SameShelf A }
    ensures universe { EveryShelfHasItsUniverse A }
{}

// A list rests on the record alone: a record of all that is needed suffices, and what a Web tells elsewhere changes nothing.
pub fn record_suffices<A>()
    ensures suffices { RecordSuffices A }
    ensures decides { RecordDecides A }
{}

// A shelf grows as a graph, so that what a walk has looked up is still needed at its end.
pub fn lookups_stay_needed<A>()
    ensures grows { ShelvesGrow A }
    ensures needed { LookedUpStaysNeeded A }
{}

// A possible solution is a solution where optional parts may be left out at will.
pub fn possible_is_no_more<A>()
    ensures { PossibleIsKept A }
{}
