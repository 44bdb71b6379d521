// Why a page cannot be read, by code.
#[derive(Clone, Copy)]
pub enum Fault {
    // A line on the page that is neither empty, nor an opening, nor a triple.
    Unreadable = 1,
    // A further opening of the page.
    OpenedAgain = 2,
}

// A fault with the number of its line, from 1.
#[derive(Clone, Copy)]
pub struct PageCause {
    pub fault: Fault,
    pub line: u64,
}
