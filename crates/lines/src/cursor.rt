// The cursor over the lines of a file.
ghost use Rattle.std.specs.Prelude.{◌+◌, ◌^◌, ◌<◌, length};
ghost use Rattle.std.specs.Iterator.{at_most};

use crate::runs::run_before;

// A line without what ends it, and its number from 1.
#[derive(Clone, Copy)]
pub struct Line<'a> {
    pub bytes: &'a [u8],
    pub number: u64,
}

// What is left of a file, and how many of its lines were passed.
#[derive(Clone, Copy)]
pub struct Lines<'a> {
    pub rest: &'a [u8],
    pub passed: u64,
    // The number of each further line fits.
    pub ghost counted: { passed + length rest.now < 2 ^ 64 },
}

impl<'a> Iterator for Lines<'a> {
    ghost use Rattle.lines.specs.Steps.{NextLine};

    type Item = Line<'a>;

    ghost next_gives = { NextLine };

    ghost remaining = { λ s. at_most (length s.rest.now) };

    fn next(&mut self) -> Option<Line<'a>> {
        if self.rest.is_empty() {
            return None;
        }
        let rest = self.rest;
        let length = run_before(rest, b'\n');
        self.passed += 1;
        self.rest = &rest[(length + 1).min(rest.len())..];
        Some(Line {
            bytes: &rest[0..length],
            number: self.passed,
        })
    }
}
