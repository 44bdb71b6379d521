ghost use Rattle.samples.specs.Static.{ItCanBeWalked, JudgingOrdersThePlan, NotWhatIsAtHand, TermsAtHandWouldNeedMore};
ghost use Rattle.samples.specs.Static.{LeftSideGoesFirst, SequenceBeginsOnTheLeft, NoMiddleNoSecondStep, PlansAreAWeb};
ghost use Rattle.samples.specs.Written.{PlansAreWritten};

// Which side goes first does not depend on the terms at hand: the left one where judging allows.
pub fn plans_are_static()
    ensures walked { ItCanBeWalked }
    ensures order { JudgingOrdersThePlan }
    ensures apart { NotWhatIsAtHand }
    ensures hand { TermsAtHandWouldNeedMore }
    ensures left { LeftSideGoesFirst }
    ensures step { SequenceBeginsOnTheLeft }
    ensures middle { NoMiddleNoSecondStep }
    ensures web { PlansAreAWeb }
    ensures file { PlansAreWritten }
{}
