// A list of weighted rows as text.
ghost use Rattle.std.specs.Prelude.{◌++◌, ◌≤◌, map, length};
ghost use Rattle.std.specs.List.{flat_map};
ghost use Rattle.lexicon.specs.Held.{held};
ghost use Rattle.listing.specs.Named.{bytes_of, named};
ghost use Rattle.listing.specs.Text.{line, name_text, place_text, row_parts, text};
ghost use Rattle.listing.specs.Written.{Puts, Writes, tabbed};

use crate::name::Name;
use crate::names::Names;
use crate::put::{put, put_number, put_term};
use crate::refusal::TooShort;
use lexicon::Lexicon;
use tables::Entry;

fn put_names(names: &[Name], at: usize, into: &mut [u8]) -> usize
    ensures { Puts (flat_map tabbed (map name_text (map bytes_of names.now))) at into.old result into.new }
{
    let mut behind = at;
    for name in names {
        behind = put(b"?", behind, into);
        behind = put(name.as_slice(), behind, into);
        behind = put(b"\t", behind, into);
    }
    behind
}

fn put_places(terms: &Lexicon, places: &[u16], at: usize, into: &mut [u8]) -> usize
    ensures { Puts (flat_map tabbed (map (place_text (held terms.now)) places.now)) at into.old result into.new }
{
    let mut behind = at;
    for number in places {
        behind = put_term(terms, *number, behind, into);
        behind = put(b"\t", behind, into);
    }
    behind
}

fn put_row(names: &Names, entry: &Entry, terms: &Lexicon, at: usize, into: &mut [u8]) -> usize
    ensures { Puts (line (row_parts (named names.now) (held terms.now) entry.now)) at into.old result into.new }
{
    let places = entry.row.places;
    let count = names.as_slice().len();
    let at = put_places(terms, &places[..count], at, into);
    let at = put_number(entry.weight, at, into);
    put(b"\n", at, into)
}

fn put_list(names: &Names, rows: &[Entry], terms: &Lexicon, into: &mut [u8]) -> usize
    ensures { Puts (text (named names.now) rows.now (held terms.now)) 0 into.old result into.new }
{
    let at = put_names(names.as_slice(), 0, into);
    let mut behind = put(b"weight\n", at, into);
    for entry in rows {
        behind = put_row(names, entry, terms, behind, into);
    }
    behind
}

// Writes the text of a list at the buffer's front, and tells how many bytes it takes. It is measured first, so that a buffer which is too short is left alone.
pub fn list(
    names: &Names,
    rows: &[Entry],
    terms: &Lexicon,
    into: &mut [u8],
) -> Result<usize, TooShort>
    ensures { Writes (text (named names.now) rows.now (held terms.now)) into.old result into.new }
{
    let size = put_list(names, rows, terms, &mut []);
    if size > into.len() {
        return Err(TooShort);
    }
    Ok(put_list(names, rows, terms, into))
}
