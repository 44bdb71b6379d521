// The parts of an input: a question, a line of exactly `==`, and pages.
#![tactic(auto)]

ghost use Rattle.std.specs.Prelude.{◌≡◌, ℕ, ◌≤◌, List, length, take, MatchBool, MatchOption};
ghost use Rattle.input.specs.Parting.{BeginsLine, Opens, Line, Parted, OneParting, FrontSettles, FrontSettlesPages};

mod refusals;

pub use refusals::tell_refusal;

#[derive(Drop)]
pub struct Parts<'a> {
    pub question: &'a [u8],
    pub pages: &'a [u8],
}

impl<'a> Parts<'a> {
    // The first line of exactly `==` parts an input. Without such a line all of it is the question.
    pub fn of(input: &'a [u8]) -> Parts<'a>
        ensures { Parted input.now result.question.now result.pages.now }
    {
        (0..input.len())
            .find_map(|place| Parts::at(input, place))
            .unwrap_or(Parts {
                question: input,
                pages: &[],
            })
    }

    // The parts that a line `==` at this place makes.
    fn at(input: &'a [u8], place: usize) -> Option<Parts<'a>>
        requires { place ≤ length input.now }
        ensures { MatchOption result ((pages : List ℕ) → Line input.now (take place input.now) pages → ⊥) (λ parts. (parts.question.now ≡ take place input.now) × Line input.now (take place input.now) parts.pages.now) }
    {
        if !begins_line(input, place) {
            return None;
        }
        let pages = opened(&input[place..])?;
        Some(Parts {
            question: &input[..place],
            pages,
        })
    }
}

fn begins_line(input: &[u8], at: usize) -> bool
    requires { at ≤ length input.now }
    ensures { MatchBool result (BeginsLine (take at input.now)) (BeginsLine (take at input.now) → ⊥) }
{
    at == 0 || input[at - 1] == b'\n'
}

// The pages that a line `==` at the front opens. The end of the input ends a line too.
fn opened(rest: &[u8]) -> Option<&[u8]>
    ensures { MatchOption result ((pages : List ℕ) → Opens rest.now pages → ⊥) (λ pages. Opens rest.now pages.now) }
{
    match rest {
        [b'=', b'='] => Some(&[]),
        [b'=', b'=', b'\n', pages @ ..] => Some(pages),
        _ => None,
    }
}

// What an input asks is settled by the definitions, and of a question within a limit by the input's first bytes.
pub fn parting_is_exact()
    ensures once { OneParting }
    ensures front { FrontSettles }
    ensures pages { FrontSettlesPages }
{}
