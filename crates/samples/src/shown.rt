ghost use Rattle.samples.specs.Shown.{TwoWaysCountTwo, PresenceCountsNoWays, StarBeginsWhereItStands, BackwardsIsNotBounded};
ghost use Rattle.samples.specs.Shown.{InverseGoesBackwards, AContextHasOneSubject, EmptyHasOneSolution, OptionGivesTheValue};
ghost use Rattle.samples.specs.Shown.{NothingIsHandedIntoAnOption, AlternativesAdd, LiteralReachesItself, TheOthersAreBounded, FileIsAWeb};
ghost use Rattle.samples.specs.Texts.{TextsAskThem};
ghost use Rattle.samples.specs.Shelf.{ThreePagesSuffice};
ghost use Rattle.samples.specs.Written.{FileIsWritten};
ghost use Rattle.samples.specs.Shown.{PagesThatAreNeeded};

// Ten questions over a file of four pages, one of which cannot be walked.
pub fn pages_show_it()
    ensures texts { TextsAskThem }
    ensures ways { TwoWaysCountTwo }
    ensures presence { PresenceCountsNoWays }
    ensures star { StarBeginsWhereItStands }
    ensures backwards { BackwardsIsNotBounded }
    ensures inverse { InverseGoesBackwards }
    ensures context { AContextHasOneSubject }
    ensures empty { EmptyHasOneSolution }
    ensures option { OptionGivesTheValue }
    ensures apart { NothingIsHandedIntoAnOption }
    ensures alternatives { AlternativesAdd }
    ensures literal { LiteralReachesItself }
    ensures bounded { TheOthersAreBounded }
    ensures needed { PagesThatAreNeeded }
    ensures suffice { ThreePagesSuffice }
    ensures web { FileIsAWeb }
    ensures file { FileIsWritten }
{}
