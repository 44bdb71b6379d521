ghost use Rattle.samples.specs.Handed.{AllAreBounded, OptionIsWalkedAlone, OptionIsJudgedAlone, LeftSideGetsWhatIsFixed, UnfitRowsLeadNowhere};
ghost use Rattle.samples.specs.Handed.{AllIsHandedOn, BothSidesAreWalked, SequenceBeginsOnTheRight, StarBeginsOnTheRight};

// What goes on from part to part of a plan, by what is needed.
pub fn plans_hand_on()
    ensures bounded { AllAreBounded }
    ensures alone { OptionIsWalkedAlone }
    ensures judged { OptionIsJudgedAlone }
    ensures fixed { LeftSideGetsWhatIsFixed }
    ensures unfit { UnfitRowsLeadNowhere }
    ensures all { AllIsHandedOn }
    ensures both { BothSidesAreWalked }
    ensures sequence { SequenceBeginsOnTheRight }
    ensures star { StarBeginsOnTheRight }
{}
