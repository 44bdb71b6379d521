ghost use Rattle.samples.specs.Texts.{TextsAskForWeights};
ghost use Rattle.samples.specs.Weighed.{ListedTwiceCountsOnce, NegatedSetWeighsOne, BareRowIsKept, BareRowKeepsItsWeight, PresenceIsOneForAll};
ghost use Rattle.samples.specs.Weighed.{WeighedIsAWeb, WeighedIsBounded};
ghost use Rattle.samples.specs.Written.{WeighedIsWritten};

// Four questions over a small graph where weights could go wrong.
pub fn weights_show_it()
    ensures texts { TextsAskForWeights }
    ensures twice { ListedTwiceCountsOnce }
    ensures negated { NegatedSetWeighsOne }
    ensures bare { BareRowIsKept }
    ensures ways { BareRowKeepsItsWeight }
    ensures presence { PresenceIsOneForAll }
    ensures bounded { WeighedIsBounded }
    ensures web { WeighedIsAWeb }
    ensures file { WeighedIsWritten }
{}
