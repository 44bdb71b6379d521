// Parts of a question's text, by the offsets of their first byte and of the byte after their last.
use terms::Kind;

#[derive(Clone, Copy)]
pub struct Span {
    pub start: usize,
    pub end: usize,
}

// A term, without its marks.
#[derive(Clone, Copy)]
pub struct TermSpan {
    pub kind: Kind,
    pub span: Span,
}
