// The lawful codes of a lawful kind keep every law with nothing asked: what is proved over such weights is proved of every lawful kind.
ghost use Rattle.weights.specs.Scales.{LawfulCodesAreFair};

pub fn lawful_codes_are_fair()
    ensures { LawfulCodesAreFair }
{}
