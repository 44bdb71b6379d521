// Names taken from a question.
ghost use Rattle.std.specs.Prelude.{◌≡◌, ◌≤◌, [], map, length, take, IfOk};
ghost use Rattle.question.specs.Asking.{asked};
ghost use Rattle.listing.specs.Named.{bytes_of, named, shortened};

use crate::name::Name;
use crate::names::Names;
use question::Question;
use room::Room;
use std::alloc::{AllocError, Global};

impl Name {
    // No name that a text may have is longer than what is kept.
    fn of(name: &[u8]) -> Name
        ensures { bytes_of result ≡ take 16 name.now }
    {
        let size = name.len().min(16);
        let mut bytes = [0; 16];
        bytes[..size].copy_from_slice(&name[..size]);
        Name { bytes, size }
    }

    pub(crate) fn as_slice(&self) -> &[u8]
        ensures { result.now ≡ bytes_of self.now }
    {
        let size = self.size;
        &self.bytes[..size]
    }
}

impl Names {
    // No names. Only this call can fail for want of memory.
    pub fn reserve(heap: Global) -> Result<Names, AllocError>
        ensures { IfOk result (λ names. named names ≡ []) }
    {
        Ok(Names {
            names: Room::reserve(heap)?,
        })
    }

    // The names of a question's variables, in their order, in place of those that were held.
    pub fn take(&mut self, question: &Question)
        ensures { named self.new ≡ shortened (asked question.now).names }
    {
        self.names.clear();
        for number in 0..question.variables() {
            if let Some(name) = question.name(number) {
                let _ = self.names.push(Name::of(name));
            }
        }
    }

    pub(crate) fn as_slice(&self) -> &[Name]
        ensures names { map bytes_of result.now ≡ named self.now }
        ensures few { length result.now ≤ 8 }
    {
        self.names.as_slice()
    }
}
