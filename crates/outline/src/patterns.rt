// Patterns, in prefix form, as paths are written.
ghost use Rattle.std.specs.Prelude.{◌++◌, codes};
ghost use Rattle.outline.specs.Outlined.{Adds, end_text, path_text, pattern_text};
ghost use Rattle.question.specs.Parts.{env_of, end_at};
ghost use Rattle.outline.specs.Parts.{pattern_before};

use crate::bytes::put;
use crate::ends::put_end;
use crate::paths::put_path;
use question::{Line, PatternNode, Question};
use std::alloc::AllocError;

// The pattern at an index, if it stands before the limit. `put_path` begins alike: why the two stay apart is said at `put_two`, in paths.rt.
#[cycle(pattern_text)]
pub fn put_pattern(
    q: &Question,
    limit: usize,
    index: usize,
    out: &mut Vec<u8>,
) -> Result<(), AllocError>
    ensures { Adds result out.old.items out.new.items (pattern_text (pattern_before q.now limit index)) }
{
    if index >= limit {
        return put(b"(empty)", out);
    }
    let Some(node) = q.pattern(index) else {
        return put(b"(empty)", out);
    };
    match node {
        PatternNode::Empty => put(b"(empty)", out),
        PatternNode::Line(node) => put_line(q, node, out),
        PatternNode::And(left, right) => put_both(q, b"(and ", index, left, right, out),
        PatternNode::Union(left, right) => put_both(q, b"(union ", index, left, right, out),
        PatternNode::Opt(left, right) => put_both(q, b"(opt ", index, left, right, out),
    }
}

// Why it stays apart from `put_two`, and why both have six parameters, is said there, in paths.rt.
#[cycle(pattern_text)]
fn put_both(
    q: &Question,
    head: &[u8],
    limit: usize,
    left: usize,
    right: usize,
    out: &mut Vec<u8>,
) -> Result<(), AllocError>
    ensures { Adds result out.old.items out.new.items (head.now ++ (pattern_text (pattern_before q.now limit left) ++ (codes " " ++ (pattern_text (pattern_before q.now limit right) ++ codes ")")))) }
{
    put(head, out)?;
    put_pattern(q, limit, left, out)?;
    put(b" ", out)?;
    put_pattern(q, limit, right, out)?;
    put(b")", out)
}

fn put_line(q: &Question, node: Line, out: &mut Vec<u8>) -> Result<(), AllocError>
    ensures { Adds result out.old.items out.new.items (codes "(line " ++ (end_text (end_at q.now node.subject) ++ (codes " " ++ (path_text ((env_of q.now).path node.path) ++ (codes " " ++ (end_text (end_at q.now node.object) ++ codes ")")))))) }
{
    put(b"(line ", out)?;
    put_end(q, node.subject, out)?;
    put(b" ", out)?;
    // There are no more paths than nodes.
    put_path(q, q.nodes(), node.path, out)?;
    put(b" ", out)?;
    put_end(q, node.object, out)?;
    put(b")", out)
}
