// What a session keeps, against the Web that it was told by.
#![tactic(auto)]

mod laws;

pub use laws::{
    complete_rounds_answer, evaluated_questions_answer, numbers_ask_the_same, numbers_name_terms,
    questions_are_numbered, record_answers, record_is_kept, telling_is_lawful,
};
