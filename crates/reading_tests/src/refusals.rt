use crate::lines::{Bench, Repeat, describe, spell};
use std::process::Abort;
use std::test::Fail;

// A text that is read first. What it asks is still asked after each text that is refused.
const FIRST: &str = "{?x!(<p>|<q>)\"b\".}";

const KEPT: &str = "ok 4 ?x (line ?x (not <p> <q>) \"b\")";

// A text, and how it is refused.
static REFUSED: [(&str, &str); 33] = [
    // At the end of a text, which stands after its last blank.
    ("", "refused 2 at 0"),
    (" \t\r\n", "refused 2 at 4"),
    ("{ ", "refused 2 at 2"),
    ("{<a><p><b>. \n", "refused 2 at 13"),
    // A token that begins no question with those before it.
    ("{}{}", "refused 2 at 2"),
    ("{ <a> <p> <b> }", "refused 2 at 14"),
    ("{ <a> ?p <b> . }", "refused 2 at 6"),
    ("{ <a> \"p\" <b> . }", "refused 2 at 6"),
    ("{ <a> <p>** <b> . }", "refused 2 at 10"),
    ("{ <a> ^^<p> <b> . }", "refused 2 at 7"),
    ("{ <a> !() <b> . }", "refused 2 at 8"),
    ("{ <a> !(^<p>) <b> . }", "refused 2 at 8"),
    ("{ <a> () <b> . }", "refused 2 at 7"),
    ("{ OPTIONAL {} UNION {} }", "refused 2 at 14"),
    ("{ UNION {} }", "refused 2 at 2"),
    ("{ OPTIONAL <a> <p> <b> . }", "refused 2 at 11"),
    // No token: its own offset, and that of its first byte where it is not closed.
    ("{ optional {} }", "refused 2 at 2"),
    ("{ {} UNIONS {} }", "refused 2 at 5"),
    ("{ ? <p> <b> . }", "refused 2 at 2"),
    ("{ <> <p> <b> . }", "refused 2 at 2"),
    ("{ <a> <p q> <b> . }", "refused 2 at 6"),
    ("{ <a> <p> \"b . }  ", "refused 2 at 10"),
    ("{ <a> <p> <b . }  ", "refused 2 at 10"),
    ("{ ?x-y <p> <b> . }", "refused 2 at 4"),
    ("{\u{b}}", "refused 2 at 1"),
    // A ninth variable, also with a name that is too long.
    (
        "{?a<p>?b.?c<p>?d.?e<p>?f.?g<p>?h.?i<p><b>.}",
        "refused 5 at 33",
    ),
    (
        "{?a<p>?b.?c<p>?d.?e<p>?f.?g<p>?h.<b><p>?A.}",
        "refused 5 at 39",
    ),
    (
        "{?a<p>?b.?c<p>?d.?e<p>?f.?g<p>?h.?abcdefghijklmnopq<p><b>.}",
        "refused 5 at 33",
    ),
    // It may not stand there, so the number is that of a token that begins no question.
    ("{?a<p>?b.?c<p>?d.?e<p>?f.?g<p>?h.}?i", "refused 2 at 34"),
    ("{?a<p>?b.?c<p>?d.?e<p>?f.?g<p>?h.<b>?i", "refused 2 at 36"),
    // A name that is too long.
    ("{?abcdefghijklmnopq<p><b>.}", "refused 6 at 1"),
    ("{<a><p> ?abcdefghijklmnopq", "refused 6 at 8"),
    ("?abcdefghijklmnopq", "refused 2 at 0"),
];

// Long texts, and how they are refused.
static REFUSED_LONG: [(Repeat, &str); 24] = [
    // Over 2,048 bytes, whatever they are.
    (("{}", " ", 2047, ""), "refused 1"),
    (("}", " ", 2048, ""), "refused 1"),
    (("", "{", 2049, ""), "refused 1"),
    (("", " ", 2048, ""), "refused 2 at 2048"),
    // Over 16 open brackets of both kinds.
    (("", "{", 17, "}}}}}}}}}}}}}}}}}"), "refused 3 at 16"),
    (
        ("{<a>", "(", 16, "<p>))))))))))))))))<b>.}"),
        "refused 3 at 19",
    ),
    (("{<a>", "(", 15, "!(<p>)"), "refused 3 at 20"),
    (("", "{", 16, "("), "refused 2 at 16"),
    // Over 64 nodes: every kind of node counts.
    (("{<a>!(<p>", "|<p>", 62, ")<b>.}"), "refused 4"),
    (("{<a><p>", "/<p>", 32, "<b>.}"), "refused 4"),
    (("{<a><p>", "|<p>", 31, "*<b>.}"), "refused 4"),
    (("{<a>^<p>", "/<p>", 31, "<b>.}"), "refused 4"),
    (("{{}", "{}", 32, "}"), "refused 4"),
    (("{{}", "UNION{}", 32, "}"), "refused 4"),
    (("{", "OPTIONAL{}", 32, "}"), "refused 4"),
    // Over 64 nodes, and a fault behind them: the fault is told.
    (("{<a><p>", "/<p>", 32, "<b>. \n"), "refused 2 at 141"),
    (
        ("{<a><p>", "/<p>", 32, "<b>.?abcdefghijklmnopq<p><b>.}"),
        "refused 6 at 139",
    ),
    (
        (
            "{<a><p>",
            "/<p>",
            32,
            "<b>.?a<p>?b.?c<p>?d.?e<p>?f.?g<p>?h.?i",
        ),
        "refused 5 at 171",
    ),
    (
        ("{<a><p>", "/<p>", 32, "<b>.{{{{{{{{{{{{{{{{"),
        "refused 3 at 154",
    ),
    // A term of over 128 bytes, if it may stand there and is closed.
    (("{<", "i", 129, "><p><b>.}"), "refused 6 at 1"),
    (("{<a>!(<p>|<", "i", 129, ">)<b>.}"), "refused 6 at 10"),
    (("{<a><p>\"", "l", 129, "\".}"), "refused 6 at 7"),
    (("{<a>\"", "l", 129, "\"<b>.}"), "refused 2 at 4"),
    (("{<", "i", 129, ""), "refused 2 at 1"),
];

// Long texts that meet a limit, and the questions that they ask.
static MET: [(Repeat, Repeat); 9] = [
    (("{}", " ", 2046, ""), ("ok 1 - (empty)", "", 0, "")),
    (
        ("", "{", 16, "}}}}}}}}}}}}}}}}"),
        ("ok 1 - (empty)", "", 0, ""),
    ),
    (
        ("{<a>", "(", 15, "<p>)))))))))))))))<b>.}"),
        ("ok 2 - (line <a> <p> <b>)", "", 0, ""),
    ),
    (
        ("{<a>!(<p>", "|<p>", 61, ")<b>.}"),
        ("ok 64 - (line <a> (not <p>", " <p>", 61, ") <b>)"),
    ),
    (
        ("{<", "i", 128, "><p><b>.}"),
        ("ok 2 - (line <", "i", 128, "> <p> <b>)"),
    ),
    (
        ("{<a><", "i", 128, "><b>.}"),
        ("ok 2 - (line <a> <", "i", 128, "> <b>)"),
    ),
    (
        ("{<a><p>\"", "l", 128, "\".}"),
        ("ok 2 - (line <a> <p> \"", "l", 128, "\")"),
    ),
    (
        ("{<a><p>?", "n", 16, ".}"),
        ("ok 2 ?nnnnnnnnnnnnnnnn (line <a> <p> ?", "n", 16, ")"),
    ),
    // A variable that was named before is no ninth.
    (
        ("{?a<p>?b.?c<p>?d.?e<p>?f.?g<p>?h.?h<p>?a.", "", 0, "}"),
        (
            "ok 14 ?a,?b,?c,?d,?e,?f,?g,?h (and (and (and (and (line ?a <p> ?b) (line ?c <p> ?d)) (line ?e <p> ?f)) (line ?g <p> ?h)) (line ?h <p> ?a))",
            "",
            0,
            "",
        ),
    ),
];

// A text is refused so, and the draft stays as it was.
fn check_refused(
    bench: &mut Bench<impl Abort>,
    text: &str,
    line: &str,
    note: &str,
) -> Result<(), Fail> {
    bench.check_line(text, line, note)?;
    bench.check_held(KEPT, note)
}

#[test]
fn refusals(rt: HostRuntime) -> Result<(), Fail> {
    let mut bench = Bench::new(&rt, rt.alloc())?;
    bench.check_line(FIRST, KEPT, FIRST)?;
    for (text, line) in REFUSED.iter() {
        check_refused(&mut bench, text, line, text)?;
    }
    Ok(())
}

#[test]
fn limits_passed(rt: HostRuntime) -> Result<(), Fail> {
    let heap = rt.alloc();
    let mut bench = Bench::new(&rt, heap)?;
    bench.check_line(FIRST, KEPT, FIRST)?;
    for (parts, line) in REFUSED_LONG.iter() {
        let text = spell(heap, *parts)?;
        let note = describe(heap, *parts)?;
        check_refused(&mut bench, text.as_str(), line, note.as_str())?;
    }
    Ok(())
}

#[test]
fn limits_met(rt: HostRuntime) -> Result<(), Fail> {
    let heap = rt.alloc();
    let mut bench = Bench::new(&rt, heap)?;
    for (parts, wanted) in MET.iter() {
        let text = spell(heap, *parts)?;
        let line = spell(heap, *wanted)?;
        let note = describe(heap, *parts)?;
        bench.check_line(text.as_str(), line.as_str(), note.as_str())?;
    }
    Ok(())
}
