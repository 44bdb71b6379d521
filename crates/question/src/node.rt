// The nodes of a question's tree. Paths and patterns stand in an arena each, every node behind its children, which it names by index. An arena and no
// boxes, since memory is reserved once: a tree has 64 nodes at most, and no reading can fail for want of it.

ghost use Rattle.std.specs.Prelude.{◌<◌};

// One of a question's eight variables, by number.
#[derive(Clone, Copy)]
pub struct Variable {
    pub number: usize,
    ghost below: { number < 8 },
}

// An end of a line: a term, by its place in the question or by its number in a store, or a variable.
#[derive(Clone, Copy)]
pub enum End<T> {
    Term(T),
    Variable(Variable),
}

#[derive(Clone, Copy)]
pub enum PathNode {
    // One predicate, by its term's number.
    Link(usize),
    // Any predicate but so many terms from the first on.
    Negated { first: usize, count: usize },
    Inverse(usize),
    Star(usize),
    Sequence(usize, usize),
    Alternative(usize, usize),
}

// What a path links.
#[derive(Clone, Copy)]
pub struct Line {
    pub subject: End<usize>,
    pub path: usize,
    pub object: End<usize>,
}

#[derive(Clone, Copy)]
pub enum PatternNode {
    Empty,
    Line(Line),
    And(usize, usize),
    Union(usize, usize),
    Opt(usize, usize),
}
