// Where a term's bytes stand in a text.
#[derive(Clone, Copy)]
pub struct Part {
    pub start: usize,
    pub size: usize,
}
