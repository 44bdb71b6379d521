ghost use Rattle.std.specs.Prelude.{◌≤◌, length};

use crate::items::{Listed, Noted};
use terms::Kind;

// Terms are numbered from 1.
#[derive(Clone, Copy)]
pub struct Shelf<'a> {
    // The kind of term n stands at n - 1.
    pub kinds: &'a [Kind],
    pub noted: &'a [Noted],
    pub triples: &'a [Listed],
    // As many terms as a session may keep.
    ghost few: { length kinds.now ≤ 1024 },
}
