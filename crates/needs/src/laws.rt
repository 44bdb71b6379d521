// Places and the order of IRIs can be relied on.
ghost use Rattle.needs.specs.Needs.{FirstIsTheFirst, NoneIsNone, NothingBeforeItself, BeforeGoesOn, NeitherBeforeIsEqual};

pub fn needs_are_lawful()
    ensures first { FirstIsTheFirst }
    ensures none { NoneIsNone }
    ensures itself { NothingBeforeItself }
    ensures through { BeforeGoesOn }
    ensures equal { NeitherBeforeIsEqual }
{}
