// Paths, in prefix form. A node's parts stand before it, so a part is looked for below the node's own index, and writing ends.
ghost use Rattle.std.specs.Prelude.{◌++◌, map, codes};
ghost use Rattle.question.specs.Arena.{up_from};
ghost use Rattle.outline.specs.Outlined.{Adds, members_text, path_text};
ghost use Rattle.question.specs.Parts.{env_of};
ghost use Rattle.outline.specs.Parts.{path_before};

use crate::bytes::put;
use crate::ends::put_term;
use question::{PathNode, Question};
use std::alloc::AllocError;

// The path at an index, if it stands before the limit. `put_pattern` begins alike: why the two stay apart is said at `put_two`.
#[cycle(path_text)]
pub fn put_path(
    q: &Question,
    limit: usize,
    index: usize,
    out: &mut Vec<u8>,
) -> Result<(), AllocError>
    ensures { Adds result out.old.items out.new.items (path_text (path_before q.now limit index)) }
{
    if index >= limit {
        return put(b"(not)", out);
    }
    let Some(node) = q.path(index) else {
        return put(b"(not)", out);
    };
    match node {
        PathNode::Link(term) => put_term(q, term, out),
        PathNode::Negated { first, count } => put_negated(q, first, count, out),
        PathNode::Inverse(part) => put_one(q, b"(inv ", index, part, out),
        PathNode::Star(part) => put_one(q, b"(star ", index, part, out),
        PathNode::Sequence(left, right) => put_two(q, b"(seq ", index, left, right, out),
        PathNode::Alternative(left, right) => put_two(q, b"(alt ", index, left, right, out),
    }
}

#[cycle(path_text)]
fn put_one(
    q: &Question,
    head: &[u8],
    limit: usize,
    part: usize,
    out: &mut Vec<u8>,
) -> Result<(), AllocError>
    ensures { Adds result out.old.items out.new.items (head.now ++ (path_text (path_before q.now limit part) ++ codes ")")) }
{
    put(head, out)?;
    put_path(q, limit, part, out)?;
    put(b")", out)
}

// `put_both` of patterns differs in what writes the parts. Tried as one function over a trait of both, and a cycle of calls that leads through a trait's method
// gets no proof. Closures would be no plainer: in a cycle of calls each needs its clauses written out, longer than this function.
// Six parameters: the question and `out` go side by side for the reason at `put` in bytes.rt, and the others are the node's own.
#[cycle(path_text)]
fn put_two(
    q: &Question,
    head: &[u8],
    limit: usize,
    left: usize,
    right: usize,
    out: &mut Vec<u8>,
) -> Result<(), AllocError>
    ensures { Adds result out.old.items out.new.items (head.now ++ (path_text (path_before q.now limit left) ++ (codes " " ++ (path_text (path_before q.now limit right) ++ codes ")")))) }
{
    put(head, out)?;
    put_path(q, limit, left, out)?;
    put(b" ", out)?;
    put_path(q, limit, right, out)?;
    put(b")", out)
}

fn put_negated(
    q: &Question,
    first: usize,
    count: usize,
    out: &mut Vec<u8>,
) -> Result<(), AllocError>
    ensures { Adds result out.old.items out.new.items (codes "(not" ++ (members_text (map (env_of q.now).term (up_from first count)) ++ codes ")")) }
{
    put(b"(not", out)?;
    for i in 0..count {
        put(b" ", out)?;
        // No term has the largest number, and none a number past it.
        put_term(q, first.saturating_add(i), out)?;
    }
    put(b")", out)
}
