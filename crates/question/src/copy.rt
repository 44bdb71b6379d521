// A question in the place of another, within memory that is reserved.
ghost use Rattle.std.specs.Prelude.{◌≡◌, []};
ghost use Rattle.room.specs.Items.{items};
ghost use Rattle.question.specs.Asking.{asked};

use crate::question::Question;
use room::Room;

impl Question {
    pub(crate) fn clear(&mut self)
        ensures text { items self.new.text ≡ [] }
        ensures terms { items self.new.terms ≡ [] }
        ensures names { items self.new.names ≡ [] }
        ensures paths { items self.new.paths ≡ [] }
        ensures patterns { items self.new.patterns ≡ [] }
        ensures nodes { self.new.nodes ≡ 0 }
    {
        self.patterns.clear();
        self.paths.clear();
        self.terms.clear();
        self.names.clear();
        self.text.clear();
        self.nodes = 0;
    }

    // Asks what another question asks.
    pub fn copy(&mut self, other: &Question)
        ensures asked { asked self.new ≡ asked other.now }
    {
        // Children and parts first: a node may name only what is there.
        self.patterns.clear();
        self.paths.clear();
        self.nodes = other.nodes;
        refill(&mut self.text, &other.text);
        refill(&mut self.names, &other.names);
        refill(&mut self.terms, &other.terms);
        refill(&mut self.paths, &other.paths);
        refill(&mut self.patterns, &other.patterns);
        self.root = other.root;
    }
}

// Puts what another holds in place of what is there.
fn refill<T: Copy + Drop, const N: usize>(place: &mut Room<T, N>, other: &Room<T, N>)
    ensures { items place.new ≡ items other.now }
{
    place.clear();
    let _ = place.extend_from_slice(other.as_slice());
}
