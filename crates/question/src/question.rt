// A question: its text, the terms and names that are parts of it, and its tree.
ghost use Rattle.std.specs.Prelude.{◌≡◌, ℕ, ◌+◌, ◌≤◌, true, map, length, slice_index_or};
ghost use Rattle.grammar.specs.Numbered.{distinct as apart};
ghost use Rattle.question.specs.Arena.{name_of};
ghost use Rattle.question.specs.declared.node.PathNode.TheVariants.{Negated};
ghost use Rattle.question.specs.declared.node.PatternNode.TheVariants.{Empty};
ghost use Rattle.question.specs.Behind.{path_from, path_terms, pattern_from, pattern_paths, pattern_terms, pattern_names};
ghost use Rattle.room.specs.Items.{items};

use crate::node::{PathNode, PatternNode};
use crate::span::{Span, TermSpan};
use room::Room;

// All memory is reserved when a question is made.
#[derive(Drop)]
pub struct Question {
    pub(crate) text: Room<u8, 2048>,
    // In text order, as often as they stand there.
    pub(crate) terms: Room<TermSpan, 2048>,
    // By first place.
    pub(crate) names: Room<Span, 8>,
    pub(crate) paths: Room<PathNode, 64>,
    pub(crate) patterns: Room<PatternNode, 64>,
    // The index of the whole pattern.
    pub(crate) root: usize,
    // How many nodes there are, members of negated sets included.
    pub(crate) nodes: usize,
    ghost few: { nodes ≤ 64 },
    ghost counted: { length (items paths) + length (items patterns) ≤ nodes },
    // No two names are equal.
    ghost distinct: { apart (map (name_of (items text)) (items names)) ≡ true },
    // Every node stands behind its children, and what it names is there.
    ghost paths_from: { ((i : ℕ) → path_from (slice_index_or (items paths) i (Negated 0 0)) ≤ i) },
    ghost paths_terms: { ((i : ℕ) → path_terms (slice_index_or (items paths) i (Negated 0 0)) ≤ length (items terms)) },
    ghost patterns_from: { ((i : ℕ) → pattern_from (slice_index_or (items patterns) i Empty) ≤ i) },
    ghost patterns_paths: { ((i : ℕ) → pattern_paths (slice_index_or (items patterns) i Empty) ≤ length (items paths)) },
    ghost patterns_terms: { ((i : ℕ) → pattern_terms (slice_index_or (items patterns) i Empty) ≤ length (items terms)) },
    ghost patterns_names: { ((i : ℕ) → pattern_names (slice_index_or (items patterns) i Empty) ≤ length (items names)) },
}
