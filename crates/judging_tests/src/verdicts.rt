use judging::Judged;
use question::Draft;
use std::alloc::{AllocError, Global};
use std::test::Fail;

// Questions that are bounded, and how many of their variables are sure.
static BOUNDED: [(&str, u32); 50] = [
    // The empty pattern.
    ("{}", 0),
    ("{{}{}}", 0),
    // A line with an IRI or a negated set is walked from a constant on its left, a literal too.
    ("{<a><p>?x.}", 1),
    ("{\"a\"<p>?x.}", 1),
    ("{<a><p><b>.}", 0),
    ("{<a>!<p>?x.}", 1),
    ("{<a>!(<p>|<q>)<b>.}", 0),
    // An inverse is walked from the right, and two of them from the left.
    ("{?x^<p><a>.}", 1),
    ("{?x^!<p>\"a\".}", 1),
    ("{<a>^(^<p>)?x.}", 1),
    // A sequence is walked from either end.
    ("{<a><p>/<q>?x.}", 1),
    ("{?x^<p>/^<q><a>.}", 1),
    ("{<a><p>/^<q><b>.}", 0),
    ("{<a><p>/<q>/<r>/<s>?x.}", 1),
    // Both parts of an alternative are walked from the same end.
    ("{<a><p>|<q>?x.}", 1),
    ("{?x^<p>|^<q><a>.}", 1),
    ("{<a><p>|^<q><b>.}", 0),
    // A star is walked from an end that is known, step by step away from it.
    ("{<a><p>*?x.}", 1),
    ("{\"a\"<p>*?x.}", 1),
    ("{?x(^<p>)*<a>.}", 1),
    ("{<a>(<p>/<q>)*?x.}", 1),
    ("{<a>(<p>*/<q>)*?x.}", 1),
    ("{<a>^<p>*<b>.}", 0),
    ("{<a>(^<p>)*<b>.}", 0),
    // The same variable at both ends is one.
    ("{<a><p>?x.?x<p>?x.}", 1),
    ("{<a><p>?x.?x<p>*?x.}", 1),
    // A side of an AND gives the other what it needs, in either order.
    ("{<a><p>?x.?x<q>?y.}", 2),
    ("{?x<q>?y.<a><p>?x.}", 2),
    ("{{?x<q>?y.}{<a><p>?x.}}", 2),
    ("{?y<q>?z.?x<q>?y.<a><p>?x.}", 3),
    ("{<a><p>?x.?y^<q>?x.?y<r>?z.}", 3),
    // Sides of a UNION have the same sure variables.
    ("{{<a><p>?x.}UNION{<b><q>?x.}}", 1),
    ("{{}UNION{}}", 0),
    ("{{<a><p>?x.<a><q>?y.}UNION{<b><q>?y.?y<p>?x.}}", 2),
    ("{<a><p>?x.{?x<q>?y.}UNION{?x<r>?y.}}", 2),
    ("{{?x<q>?y.}UNION{?x<r>?y.}<a><p>?x.}", 2),
    ("{{<a><p>?x.OPTIONAL{?x<q>?y.}}UNION{<b><p>?x.}}", 1),
    // What an OPTIONAL part gives is not sure.
    ("{<a><p>?x.OPTIONAL{?x<q>?y.}}", 1),
    ("{OPTIONAL{<a><p>?x.}}", 0),
    ("{<a><p>?x.OPTIONAL{?x<q>?y.?y<r>?z.}}", 1),
    ("{<a><p>?x.OPTIONAL{?x<q>?y.}<b><p>?y.}", 2),
    ("{<a><p>?x.OPTIONAL{?x<q>?y.}OPTIONAL{?x<r>?y.}}", 1),
    ("{<a><p>?x.OPTIONAL{<b><q>?y.OPTIONAL{?y<r>?z.}}}", 1),
    // The left side of an OPTIONAL has what is outside.
    ("{<a><p>?x.{?x<q>?y.OPTIONAL{?y<r>?z.}}}", 2),
    // Grouped so, each line comes after the one that it needs.
    ("{?x<p>?y.?y<p>?z.<m><p>?x.}", 3),
    ("{{?x<p>?y.?y<p>?z.}{<m><p>?x.}}", 3),
    // Eight variables, from the last line to the first.
    (
        "{?g<p>?h.?f<p>?g.?e<p>?f.?d<p>?e.?c<p>?d.?b<p>?c.?a<p>?b.<m><p>?a.}",
        8,
    ),
    // Deep groups of nothing around a line.
    ("{{{{{{{{<a><p>?x.}{}}{}}{}}{}}{}}{}}{}}", 1),
    // The walk begins on the right of a sequence whose left end is not known.
    ("{?x(^<p>/^<q>)/^<r><a>.}", 1),
    ("{?x^(<p>/<q>*)<a>.}", 1),
];

// Questions that are not.
static UNBOUNDED: [&str; 45] = [
    // Nothing is known on the left.
    "{?x<p><a>.}",
    "{?x<p>?y.}",
    "{?x<p>?x.}",
    "{?x!<p><a>.}",
    "{?x!(<p>|<q>)\"a\".}",
    // An inverse needs its right end.
    "{<a>^<p>?x.}",
    "{\"a\"^!<p>?x.}",
    "{?x^(^<p>)<a>.}",
    // No end to begin a sequence from, or no way on in its middle.
    "{?x<p>/<q><a>.}",
    "{<a><p>/^<q>?x.}",
    "{?x<p>/^<q><a>.}",
    "{<a>^<p>/^<q>?x.}",
    // One part of an alternative cannot be walked.
    "{<a><p>|^<q>?x.}",
    "{?x<p>|^<q><a>.}",
    "{<a>(<p>|^<q>)*?x.}",
    // A star's end is known, but its steps lead the other way; or no end is.
    "{<a>(^<p>)*?x.}",
    "{?x<p>*<a>.}",
    "{?x<p>*?y.}",
    "{?x<p>*?x.}",
    "{<a>(<p>/^<q>)*<b>.}",
    "{<a>(<p>|^<p>)*<b>.}",
    // No side of an AND can be first.
    "{?x<p>?y.?y<q>?x.}",
    "{?x<p>?y.?y<p>?z.}",
    "{<a><p>?x.?y<q>?z.}",
    "{{?x<q>?y.}{?y<p><a>.}}",
    // Regrouped, the second line would need what the first gives.
    "{?x<p>?y.{?y<p>?z.<m><p>?x.}}",
    "{?x<p>?y.{<m><p>?x.?y<p>?z.}}",
    "{{?y<p>?z.<m><p>?x.}{?x<p>?y.}}",
    // The sides of a UNION have different sure variables, or one is not bounded.
    "{{<a><p>?x.}UNION{<a><p>?y.}}",
    "{{<a><p>?x.}UNION{}}",
    "{{}UNION{<a><p>?x.}}",
    "{{<a><p>?x.<a><q>?y.}UNION{<a><p>?x.}}",
    "{{<a><p>?x.}UNION{?x<p><a>.}}",
    "{{?x<p><a>.}UNION{<a><p>?x.}}",
    "{{<a><p>?x.OPTIONAL{<a><p>?y.}}UNION{<a><p>?x.<a><p>?y.}}",
    // An OPTIONAL part gets what is on its left alone, and only what is sure there.
    "{OPTIONAL{?x<p>?y.}<a><p>?x.}",
    "{<a><p>?x.{<b><q>?y.OPTIONAL{?x<r>?z.}}}",
    "{<a><p>?x.OPTIONAL{?x<q>?y.}OPTIONAL{?y<r>?z.}}",
    "{<a><p>?x.{OPTIONAL{?x<q>?y.}}}",
    "{?x<p>?y.OPTIONAL{?x<q>?z.}}",
    "{<a><p>?x.OPTIONAL{?y<q>?x.}}",
    // What only an OPTIONAL part gives does not help behind it.
    "{<a><p>?x.OPTIONAL{?x<q>?y.}?y<r>?z.}",
    "{OPTIONAL{<a><p>?x.}?x<q>?y.}",
    // Common to both sides of a UNION is not enough, if a side needs more.
    "{{<a><p>?x.?y<q>?x.}UNION{<a><p>?x.<a><q>?y.}}",
    // Nothing helps a line that begins nowhere.
    "{?x<p>?y.{}{}{}{}{}{}{}{}{}{}{}{}{}{}{}{}{}{}{}{}{}{}{}{}{}{}{}{}{}{}}",
];

// What judging a text tells: how many variables are sure, or nothing where the question is not bounded.
#[derive(Drop)]
struct Bench {
    draft: Draft,
    judged: Judged,
}

impl Bench {
    fn new(heap: Global) -> Result<Bench, AllocError> {
        Ok(Bench {
            draft: Draft::new(heap)?,
            judged: Judged::new(heap)?,
        })
    }

    fn verdict(&mut self, text: &str) -> Result<Option<u32>, Fail> {
        match self.draft.read(text.as_bytes()) {
            Ok(()) => Ok(self.judged.judge(&self.draft).ok()),
            Err(_) => Err(Fail::new("it is no question")),
        }
    }
}

#[test]
fn bounded(rt: HostRuntime) -> Result<(), Fail> {
    let mut bench = Bench::new(rt.alloc())?;
    for (text, count) in BOUNDED.iter() {
        assert_eq!(rt; bench.verdict(text)?, Some(*count), "{}", *text);
    }
    Ok(())
}

#[test]
fn unbounded(rt: HostRuntime) -> Result<(), Fail> {
    let mut bench = Bench::new(rt.alloc())?;
    for text in UNBOUNDED.iter() {
        assert_eq!(rt; bench.verdict(text)?, None, "{}", *text);
    }
    Ok(())
}
