ghost use Rattle.samples.specs.Walked.{JustThesePages, JustTheseDocuments, TheirTexts, BothAreBounded, OptionIsAnsweredAlone};
ghost use Rattle.samples.specs.Walked.{HandedInItWouldDiffer, AllFourAreNeeded, FarEndIsNotHandedIn};

// What walks need; an OPTIONAL that is reached with something fixed, and a star whose far end is.
pub fn walks_show_it()
    ensures pages { JustThesePages }
    ensures documents { JustTheseDocuments }
    ensures texts { TheirTexts }
    ensures bounded { BothAreBounded }
    ensures alone { OptionIsAnsweredAlone }
    ensures handed { HandedInItWouldDiffer }
    ensures four { AllFourAreNeeded }
    ensures closure { FarEndIsNotHandedIn }
{}
