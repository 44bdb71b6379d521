// A list of at most N items, whose memory is reserved when it is made.
ghost use Rattle.std.specs.Prelude.{◌≤◌, length, vec_capacity};

#[derive(Drop)]
pub struct Room<T, const N: usize> {
    pub(crate) items: Vec<T>,
    ghost room: { N ≤ vec_capacity items },
    ghost few: { length items.items ≤ N },
}
