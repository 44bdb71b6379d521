// Lists can be relied on.
ghost use Rattle.listing.specs.Laws.{TextTellsItsParts, OneLineMoreThanRows, LawfulTermsAreWhole, TextEndsWithItsLine, NoRowsAreOneLine, FirstLineIsOfNames, RowsHaveThePartsOfTheHeading, NamesOfQuestionsStay, NamesOfQuestionsAreWhole, ExampleReads};

pub fn lists_are_lawful()
    ensures parts { TextTellsItsParts }
    ensures lines { OneLineMoreThanRows }
    ensures terms { LawfulTermsAreWhole }
    ensures ended { TextEndsWithItsLine }
    ensures alone { NoRowsAreOneLine }
    ensures first { FirstLineIsOfNames }
    ensures even { RowsHaveThePartsOfTheHeading }
    ensures names { NamesOfQuestionsStay }
    ensures unparted { NamesOfQuestionsAreWhole }
    ensures example { ExampleReads }
{}
