ghost use Rattle.samples.specs.Many.{ObjectsAreCounted, ClosureIsCounted, MiddleTermsAreCounted, OwnRowsAreCounted};

// How many are too many.
pub fn many_are_counted()
    ensures objects { ObjectsAreCounted }
    ensures closure { ClosureIsCounted }
    ensures middle { MiddleTermsAreCounted }
    ensures own { OwnRowsAreCounted }
{}
