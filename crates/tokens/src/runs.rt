// Runs of bytes of one class, as long as they can be.
ghost use Rattle.std.specs.Prelude.{◌≡◌, ◌+◌, length, drop, take_while};
ghost use Rattle.tokens.specs.Runs.{passes};

use terms::{is_blank, is_iri_byte, is_literal_byte, is_word_byte};

// The bytes between tokens, in an IRI, in a literal, and in a variable or a keyword. They go by a name: a test that is passed as a closure would bring
// what it decides into the clause of each run.
#[derive(Clone, Copy)]
pub enum Class {
    Blank,
    Iri,
    Literal,
    Word,
}

fn belongs(b: u8, class: Class) -> bool
    ensures { result ≡ passes class b }
{
    match class {
        Class::Blank => is_blank(b),
        Class::Iri => is_iri_byte(b),
        Class::Literal => is_literal_byte(b),
        Class::Word => is_word_byte(b),
    }
}

// How many bytes the longest run of a class has that begins these.
fn run(bytes: &[u8], class: Class) -> usize
    ensures { result ≡ length (take_while (passes class) bytes.now) }
{
    bytes.iter().take_while(|b| belongs(**b, class)).count()
}

// Where the longest run of bytes of a class ends that begins at `from`.
pub fn run_end(text: &[u8], from: usize, class: Class) -> usize
    ensures { result ≡ from + length (take_while (passes class) (drop from text.now)) }
{
    if from < text.len() {
        from + run(&text[from..], class)
    } else {
        from
    }
}
