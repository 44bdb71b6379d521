// The bytes of parts of a text, and names among those seen before.
ghost use Rattle.std.specs.Prelude.{◌≡◌, position};
ghost use Rattle.room.specs.Items.{items};
ghost use Rattle.std.specs.Str.{bytes_eq};
ghost use Rattle.question.specs.Arena.{name_of};

use crate::reader::Reader;
use crate::span::Span;

impl Span {
    // The part of the text, as far as the text goes.
    pub fn of<'a>(self, text: &'a [u8]) -> &'a [u8]
        ensures { result.now ≡ name_of text.now self }
    {
        let end = self.end.min(text.len());
        let start = self.start.min(end);
        &text[start..end]
    }
}

impl Reader {
    // The number of a name that was seen before.
    pub(crate) fn find_name(&self, name: Span) -> Option<usize>
        ensures { let text = items self.now.built.text in result ≡ position (λ s. bytes_eq (name_of text name) (name_of text s)) (items self.now.built.names) }
    {
        let text = self.built.text.as_slice();
        let name = name.of(text);
        self.built
            .names
            .as_slice()
            .iter()
            .position(|seen| name == seen.of(text))
    }
}
