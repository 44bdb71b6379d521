// Why a store declines. What has one reason is a struct: an enum of one variant would only name it twice.

// The terms of a question would pass a limit.
#[derive(Clone, Copy)]
pub struct TermsUnfit;

// The record has no such place.
#[derive(Clone, Copy)]
pub struct NoEntry;

// Why an IRI was not looked up, by number.
#[derive(Clone, Copy)]
pub enum Unlooked {
    // The record is full.
    Full = 9,
    // No IRI has this number.
    NoSuch = 14,
}
