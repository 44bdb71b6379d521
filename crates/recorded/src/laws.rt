ghost use Rattle.recorded.specs.Rounds.{CompleteIsAnswered, CompleteRoundsAnswer};
ghost use Rattle.recorded.specs.Questions.{QuestionsAreNumbered, TermsAreAsked, EnteredTermsAreKnown, LookupsKeepNumbers, EvaluatedQuestionsAnswer};
ghost use Rattle.recorded.specs.Recorded.{FreshIsRecorded, EnteringKeepsIt, TellingIsLawful, NotingKeepsIt, LookingKeepsIt, RecordIsOfItsAddresses};
ghost use Rattle.recorded.specs.ByTerm.{NumbersAskTheSame, RecordAnswers, EvaluationAnswers, EvaluationCounts};
ghost use Rattle.recorded.specs.ByNumber.{NumbersCount, DocumentsAreTheWebs, ContextsAreTheWebs, GraphsAreNamesakes};

// From the fresh session on, what a session keeps is what the Web tells, and only at the addresses that are recorded.
pub fn record_is_kept()
    ensures fresh { FreshIsRecorded }
    ensures entering { EnteringKeepsIt }
    ensures noting { NotingKeepsIt }
    ensures looking { LookingKeepsIt }
    ensures addresses { RecordIsOfItsAddresses }
{}

// Every make's Web can be told by two numbers for its causes.
pub fn telling_is_lawful<C>()
    ensures { TellingIsLawful C }
{}

// By number the documents at hand are those that the Web finds at the recorded IRIs, but for unfit ones.
pub fn numbers_name_terms()
    ensures count { NumbersCount }
    ensures documents { DocumentsAreTheWebs }
    ensures contexts { ContextsAreTheWebs }
    ensures graphs { GraphsAreNamesakes }
{}

// A question by number, over the documents at hand, asks what it asks by term over those of the record; so an evaluation says too many exactly where it has.
pub fn numbers_ask_the_same()
    ensures questions { NumbersAskTheSame }
    ensures counts { EvaluationCounts }
{}

// Where all that it needs is recorded as found or absent, its rows of numbers are, by term, what it has over the whole Web; and so is an evaluation's table.
pub fn record_answers<C>()
    ensures web { RecordAnswers C }
    ensures evaluation { EvaluationAnswers C }
{}

// A question that was read asks by number what it asks by term.
pub fn questions_are_numbered()
    ensures numbers { QuestionsAreNumbered }
    ensures terms { TermsAreAsked }
    ensures entered { EnteredTermsAreKnown }
    ensures later { LookupsKeepNumbers }
{}

// So what an evaluation answers about it is what it has over the whole Web, where all that was marked is recorded as found or absent.
pub fn evaluated_questions_answer<C>()
    ensures { EvaluatedQuestionsAnswer C }
{}

// That is so at the end of a round that finds none of it missing from the record, and none broken or unfit.
pub fn complete_rounds_answer<C>()
    ensures answered { CompleteIsAnswered }
    ensures table { CompleteRoundsAnswer C }
{}
