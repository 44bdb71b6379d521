// What a read answers.
use terms::Kind;

// The term that a read wrote at the buffer's front.
#[derive(Clone, Copy)]
pub struct Written {
    pub kind: Kind,
    pub length: usize,
}
