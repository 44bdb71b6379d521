// Numbers of terms can be relied on.
ghost use Rattle.lexicon.specs.Numbering.{NumberTellsItsTerm, TermHasANumber, NumbersTellTermsApart, NumbersStay, EnteredHasANumber, EnteringTwiceIsOnce, EachTermOnce};

pub fn numbers_are_lawful()
    ensures tells { NumberTellsItsTerm }
    ensures numbered { TermHasANumber }
    ensures apart { NumbersTellTermsApart }
    ensures stay { NumbersStay }
    ensures entered { EnteredHasANumber }
    ensures twice { EnteringTwiceIsOnce }
    ensures once { EachTermOnce }
{}
