ghost use Rattle.samples.specs.Texts.{PlannersAskThem};
ghost use Rattle.samples.specs.Written.{FeedersAreWritten};
ghost use Rattle.samples.specs.Feeders.{TwoOrdersOfOneQuestion, FeedersAreAWeb, FirstList, SecondList, ListsOfPresence, OneListByName, BothCanBeWalked, OneSetOfDocuments};

// The capacitor that filled two feeders: one question in two orders, with one list.
pub fn feeders_show_it()
    ensures texts { PlannersAskThem }
    ensures alike { TwoOrdersOfOneQuestion }
    ensures web { FeedersAreAWeb }
    ensures file { FeedersAreWritten }
    ensures first { FirstList }
    ensures second { SecondList }
    ensures presence { ListsOfPresence }
    ensures names { OneListByName }
    ensures documents { OneSetOfDocuments }
    ensures walked { BothCanBeWalked }
{}
