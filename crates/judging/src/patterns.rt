// The sure variables of a pattern, where it is bounded by those that are fixed. A node's parts stand before it, so the index falls.
ghost use Rattle.std.specs.Prelude.{◌≡◌, ◌≤◌, length};
ghost use Rattle.grammar.specs.Syntax.{and, union, opt};
ghost use Rattle.question.specs.Asking.{asked};
ghost use Rattle.question.specs.Behind.{end_names};
ghost use Rattle.judging.specs.Masked.{Judges, asks_at, line_at};

use crate::masks::{is_fixed, mask_of};
use crate::paths::walkable;
use question::{Line, PatternNode, Question};

#[cycle(pattern_verdict)]
pub(crate) fn judge(q: &Question, index: usize, fixed: u8) -> Option<u8>
    ensures { Judges (asks_at q.now index) fixed result }
{
    let Some(node) = q.pattern(index) else {
        return Some(0);
    };
    match node {
        PatternNode::Empty => Some(0),
        PatternNode::Line(node) => judge_line(q, node, fixed),
        PatternNode::And(left, right) => judge_and(q, left, right, fixed),
        PatternNode::Union(left, right) => judge_union(q, left, right, fixed),
        PatternNode::Opt(left, right) => judge_opt(q, left, right, fixed),
    }
}

fn judge_line(q: &Question, node: Line, fixed: u8) -> Option<u8>
    requires subject { end_names node.subject ≤ length (asked q.now).names }
    requires object { end_names node.object ≤ length (asked q.now).names }
    ensures { Judges (line_at q.now node.subject node.path node.object) fixed result }
{
    let Line {
        subject,
        path,
        object,
    } = node;
    if walkable(q, path, is_fixed(subject, fixed), is_fixed(object, fixed)) {
        Some(mask_of(subject) | mask_of(object))
    } else {
        None
    }
}

// The left side first where it is bounded so: then the right side decides. Else the right side must help the left.
#[cycle(pattern_verdict)]
fn judge_and(q: &Question, left: usize, right: usize, fixed: u8) -> Option<u8>
    ensures { Judges (and (asks_at q.now left) (asks_at q.now right)) fixed result }
{
    match judge(q, left, fixed) {
        Some(given) => {
            let more = judge(q, right, fixed | given)?;
            Some(given | more)
        }
        None => {
            let given = judge(q, right, fixed)?;
            if fixed | given == fixed {
                return None;
            }
            let more = judge(q, left, fixed | given)?;
            Some(more | given)
        }
    }
}

#[cycle(pattern_verdict)]
fn judge_union(q: &Question, left: usize, right: usize, fixed: u8) -> Option<u8>
    ensures { Judges (union (asks_at q.now left) (asks_at q.now right)) fixed result }
{
    let one = judge(q, left, fixed)?;
    let other = judge(q, right, fixed)?;
    if one == other {
        Some(one & other)
    } else {
        None
    }
}

// The optional side gets what the left side gives, and nothing else.
#[cycle(pattern_verdict)]
fn judge_opt(q: &Question, left: usize, right: usize, fixed: u8) -> Option<u8>
    ensures { Judges (opt (asks_at q.now left) (asks_at q.now right)) fixed result }
{
    let given = judge(q, left, fixed)?;
    judge(q, right, given)?;
    Some(given)
}
