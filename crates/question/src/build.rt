// One node more of the tree that is being read.
ghost use Rattle.std.specs.Prelude.{◌<◌};
ghost use Rattle.question.specs.Views.{view};
ghost use Rattle.question.specs.Outcomes.{PlacedPath, PlacedPattern};
ghost use Rattle.question.specs.Within.{PathFits, PatternFits};

use crate::node::{PathNode, PatternNode};
use crate::reader::Reader;

impl Reader {
    // Puts a path into its arena, or notes that there are too many nodes. The text is read on all the same, since a fault behind is told first; an
    // index of no node is 0, and nothing looks at it once the arenas are full. An Option there would only be passed from call to call.
    pub(crate) fn add_path(&mut self, node: PathNode, cost: usize) -> usize
        requires some { 0 < cost }
        requires fits { PathFits self.old node }
        ensures { PlacedPath (view self.old) (view self.new) node cost result }
    {
        if self.full || cost > 64 - self.built.nodes {
            self.full = true;
            return 0;
        }
        let i = self.built.paths.len();
        self.built.nodes += cost;
        let _ = self.built.paths.push(node);
        i
    }

    // The same for a pattern. One function of both would take the arena, its invariants and the cost as a trait, and be longer than these two.
    pub(crate) fn add_pattern(&mut self, node: PatternNode) -> usize
        requires { PatternFits self.old node }
        ensures { PlacedPattern (view self.old) (view self.new) node 1 result }
    {
        if self.full || self.built.nodes >= 64 {
            self.full = true;
            return 0;
        }
        let i = self.built.patterns.len();
        self.built.nodes += 1;
        let _ = self.built.patterns.push(node);
        i
    }
}
