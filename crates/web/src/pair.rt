// Two Webs as one. The second answers where the first knows nothing.
#[derive(Drop)]
pub struct Pair<A, B> {
    pub first: A,
    pub second: B,
}

// The cause of either, whole.
#[derive(Drop)]
pub enum PairCause<A, B> {
    First(A),
    Second(B),
}
