// Terms enter, and the last ones are forgotten.
ghost use Rattle.std.specs.Prelude.{◌≡◌, ◌+◌, ◌<◌, ◌≤◌, [], ◌∷◌, ◌++◌, length, take};
ghost use Rattle.room.specs.Items.{items};
ghost use Rattle.lexicon.specs.Numbering.{admit, admitted, term as the};
ghost use Rattle.lexicon.specs.Held.{held};

use crate::lexicon::Lexicon;
use crate::part::Part;
use terms::Kind;

impl Lexicon {
    // A term's number, which it gets now if it has none. None where a limit would be passed; then nothing is changed.
    pub fn enter(&mut self, kind: Kind, bytes: &[u8]) -> Option<u16>
        ensures answer { result ≡ admitted (held self.old) (the kind bytes.now) }
        ensures after { held self.new ≡ admit (held self.old) (the kind bytes.now) }
    {
        if let Some(number) = self.number(kind, bytes) {
            return Some(number);
        }
        if self.kinds.is_full() || self.text.free() < bytes.len() {
            return None;
        }
        self.append(kind, bytes);
        Some(self.count() as u16)
    }

    // Puts a term behind the others. There is room for it.
    fn append(&mut self, kind: Kind, bytes: &[u8])
        requires count { length (items self.old.kinds) < 1024 }
        requires text { length (items self.old.text) + length bytes.now ≤ 32768 }
        ensures { held self.new ≡ held self.old ++ the kind bytes.now ∷ [] }
    {
        let part = Part {
            start: self.text.len(),
            size: bytes.len(),
        };
        let _ = self.text.extend_from_slice(bytes);
        let _ = self.kinds.push(kind);
        let _ = self.parts.push(part);
    }

    // Keeps so many terms, the first ones, and forgets the others.
    pub fn cut(&mut self, count: usize)
        ensures { held self.new ≡ take count (held self.old) }
    {
        if let Some(part) = self.parts.as_slice().get(count) {
            let end = part.start;
            self.text.truncate(end);
            self.kinds.truncate(count);
            self.parts.truncate(count);
        }
    }
}
