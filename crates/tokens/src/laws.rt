// What the tokens of a text are, apart from how they are cut.
ghost use Rattle.tokens.specs.Laid.{EveryTextIsLaid, LaidOnce};

// The tokens are the text with its blanks left out, and no other list of tokens is.
pub fn tokens_are_laid()
    ensures laid { EveryTextIsLaid }
    ensures once { LaidOnce }
{}
