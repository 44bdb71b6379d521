// One way through the file, to the page of an address and past it.
ghost use Rattle.std.specs.Prelude.{◌≡◌, [], Some, None, MatchOption, MatchResult};
ghost use Rattle.web.specs.Meaning.{absent, broken};
ghost use Rattle.lines.specs.Lines.{lines as lines_of};
ghost use Rattle.lines.specs.Readings.{opening as opened_by};
ghost use Rattle.pages.specs.Pages.{first_fault, is_page, lines_on, page_at};
ghost use Rattle.pages.specs.Steps.{Holds, Opened, Passed};

use crate::cause::{Fault, PageCause};
use lines::{Line, Lines, Saying, Stated, opening, said};

// How many triples a page states, and the one at a place.
#[derive(Clone, Copy)]
pub struct Seen<'a> {
    pub count: usize,
    pub stated: Option<Stated<'a>>,
}

// Whether a line opens the page of an address.
fn opens(line: Line, address: &[u8]) -> bool
    ensures { result ≡ is_page address.now (opened_by line.entry.bytes.now) }
{
    opening(line).is_ok_and(|opened| opened == address)
}

// Passes lines until one opens the page of an address. The lines behind are what is wanted.
fn find<'a>(from: Lines<'a>, address: &[u8]) -> Option<Lines<'a>>
    ensures { MatchOption result (lines_on address.now from.entry.passed None (lines_of from.entry.rest.now) ≡ []) (λ l. Opened address.now from.entry.passed from.entry.rest.now l.passed l.rest.now) }
{
    let mut lines = from;
    lines.any(|line| opens(line, address)).then_some(lines)
}

// Passes the lines of a page that is open, until another page is opened, and tells the lines behind too. Tried as a `for` over `by_ref`: the `next` of a `&mut` doesn't promise that it keeps
// its reference, so a proof knows nothing of the lines behind the loop, which are wanted.
fn page<'a>(
    from: Lines<'a>,
    address: &[u8],
    place: usize,
) -> Result<(Seen<'a>, Lines<'a>), PageCause>
    ensures { MatchResult result (λ s. Passed address.now from.entry.passed from.entry.rest.now place s.0.count s.0.stated None s.1.passed s.1.rest.now) (λ e. first_fault (lines_on address.now from.entry.passed (Some address.now) (lines_of from.entry.rest.now)) ≡ Some e) }
{
    let mut behind = from;
    let mut count = 0;
    let mut stated = None;
    while let Some(line) = behind.next() {
        match said(line)? {
            Saying::Nothing => {}
            Saying::States(triple) => {
                if count == place {
                    stated = Some(triple);
                }
                count += 1;
            }
            Saying::Opens(opened) => {
                if opened == address {
                    return Err(PageCause {
                        fault: Fault::OpenedAgain,
                        line: line.number,
                    });
                }
                break;
            }
        }
    }
    Ok((Seen { count, stated }, behind))
}

// What the page of an address holds. Every line is passed once.
#[tactic(auto, using(crate::proofs::Seeing::see_again))]
pub fn scan<'a>(file: &'a [u8], address: &[u8], place: usize) -> Result<Option<Seen<'a>>, PageCause>
    ensures { MatchResult result (λ o. MatchOption o (page_at file.now address.now ≡ absent) (λ s. Holds (page_at file.now address.now) place s.count s.stated)) (λ e. page_at file.now address.now ≡ broken e) }
{
    let start = Lines {
        rest: file,
        passed: 0,
    };
    let Some(opened) = find(start, address) else {
        return Ok(None);
    };
    let (seen, behind) = page(opened, address, place)?;
    if let Some(again) = find(behind, address) {
        return Err(PageCause {
            fault: Fault::OpenedAgain,
            line: again.passed,
        });
    }
    Ok(Some(seen))
}
