// Says that the order of taking is an order and settles where each row stands, and does nothing.
ghost use Rattle.waiting.specs.Laws.{OneComesFirst, FirstIsHandedOn, OnlyOneRowTies, OnceIsStrict, SomeOrder, OneOrder, SameAnswersWaitAlike};

pub fn waiting_is_settled()
    ensures total { OneComesFirst }
    ensures handed { FirstIsHandedOn }
    ensures ties { OnlyOneRowTies }
    ensures strict { OnceIsStrict }
    ensures some { SomeOrder }
    ensures one { OneOrder }
    ensures alike { SameAnswersWaitAlike }
{}
