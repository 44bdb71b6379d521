// Whether a path can be walked, by which of its ends are fixed. A node's parts stand before it, so the index falls.
ghost use Rattle.std.specs.Prelude.{◌≡◌};
ghost use Rattle.grammar.specs.Syntax.{star, sequence};
ghost use Rattle.grammar.specs.Walkable.{walkable as can_walk};
ghost use Rattle.question.specs.Parts.{path_is};

use question::{PathNode, Question};

#[cycle(path_verdict)]
pub(crate) fn walkable(q: &Question, index: usize, left: bool, right: bool) -> bool
    ensures { result ≡ can_walk (path_is q.now index) left right }
{
    let Some(node) = q.path(index) else {
        return left;
    };
    match node {
        PathNode::Link(_) => left,
        PathNode::Negated { .. } => left,
        PathNode::Inverse(part) => walkable(q, part, right, left),
        PathNode::Star(part) => walkable_again(q, part, left, right),
        PathNode::Sequence(first, second) => walkable_in_turn(q, first, second, left, right),
        PathNode::Alternative(one, other) => {
            walkable(q, one, left, right) && walkable(q, other, left, right)
        }
    }
}

// From the left end, if it is fixed and every step can be walked so; else from the right end.
#[cycle(path_verdict)]
fn walkable_again(q: &Question, part: usize, left: bool, right: bool) -> bool
    ensures { result ≡ can_walk (star (path_is q.now part)) left right }
{
    if left && walkable(q, part, true, false) {
        return true;
    }
    right && walkable(q, part, false, true)
}

// From the left where the first part can be walked so: then the second part decides.
#[cycle(path_verdict)]
fn walkable_in_turn(q: &Question, first: usize, second: usize, left: bool, right: bool) -> bool
    ensures { result ≡ can_walk (sequence (path_is q.now first) (path_is q.now second)) left right }
{
    if walkable(q, first, left, false) {
        walkable(q, second, true, right)
    } else {
        walkable(q, second, false, right) && walkable(q, first, left, true)
    }
}
