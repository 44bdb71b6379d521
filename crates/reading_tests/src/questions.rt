use crate::lines::Bench;
use std::test::Fail;

// A text, and the question that it asks.
static ROWS: [(&str, &str); 35] = [
    // Blanks of four kinds, wherever tokens meet, and none.
    ("{}", "ok 1 - (empty)"),
    ("\t\r\n {\n\t} \r", "ok 1 - (empty)"),
    (
        "{?x\t<p>\r\n*\"a b\" .}",
        "ok 3 ?x (line ?x (star <p>) \"a b\")",
    ),
    (
        "{?x<p>?y.?y<q>\"\".}",
        "ok 5 ?x,?y (and (line ?x <p> ?y) (line ?y <q> \"\"))",
    ),
    // A group alone in a group is that group.
    ("{{{}}}", "ok 1 - (empty)"),
    ("{{<a><p><b>.}}", "ok 2 - (line <a> <p> <b>)"),
    // Items are joined from the left.
    ("{{}{}{}}", "ok 5 - (and (and (empty) (empty)) (empty))"),
    ("{{}{{}{}}}", "ok 5 - (and (empty) (and (empty) (empty)))"),
    (
        "{<a><p><b>.<c><p><d>.<e><p><f>.}",
        "ok 8 - (and (and (line <a> <p> <b>) (line <c> <p> <d>)) (line <e> <p> <f>))",
    ),
    ("{<a><p><b>.{}}", "ok 4 - (and (line <a> <p> <b>) (empty))"),
    // Unions group from the left, and bind before items are joined.
    (
        "{{}UNION{}UNION{}}",
        "ok 5 - (union (union (empty) (empty)) (empty))",
    ),
    (
        "{{}UNION{{}UNION{}}}",
        "ok 5 - (union (empty) (union (empty) (empty)))",
    ),
    (
        "{<a><p><b>.{}UNION{}}",
        "ok 6 - (and (line <a> <p> <b>) (union (empty) (empty)))",
    ),
    (
        "{{}UNION{}{}}",
        "ok 5 - (and (union (empty) (empty)) (empty))",
    ),
    // An option takes all before it, and the empty pattern if nothing is.
    ("{OPTIONAL{}}", "ok 3 - (opt (empty) (empty))"),
    ("{{}OPTIONAL{}}", "ok 3 - (opt (empty) (empty))"),
    (
        "{OPTIONAL{}OPTIONAL{}}",
        "ok 5 - (opt (opt (empty) (empty)) (empty))",
    ),
    (
        "{OPTIONAL{}<a><p><b>.}",
        "ok 6 - (and (opt (empty) (empty)) (line <a> <p> <b>))",
    ),
    (
        "{?x<p>?y.OPTIONAL{?y<q>?z.}?z<r>?x.}",
        "ok 8 ?x,?y,?z (and (opt (line ?x <p> ?y) (line ?y <q> ?z)) (line ?z <r> ?x))",
    ),
    // Variables are numbered by first place, and have a name once.
    (
        "{?b<p>?a.?a<p>?c.}",
        "ok 5 ?b,?a,?c (and (line ?b <p> ?a) (line ?a <p> ?c))",
    ),
    ("{?x<p>?x.}", "ok 2 ?x (line ?x <p> ?x)"),
    // A keyword is no keyword in a name, a term or after a name.
    (
        "{?UNION<OPTIONAL>\"UNION\".}",
        "ok 2 ?UNION (line ?UNION <OPTIONAL> \"UNION\")",
    ),
    ("{?xUNION<p>?x.}", "ok 2 ?xUNION,?x (line ?xUNION <p> ?x)"),
    // Paths group from the left, sequences before alternatives.
    (
        "{<a><p>/<q>/<r><b>.}",
        "ok 6 - (line <a> (seq (seq <p> <q>) <r>) <b>)",
    ),
    (
        "{<a><p>|<q>|<r><b>.}",
        "ok 6 - (line <a> (alt (alt <p> <q>) <r>) <b>)",
    ),
    (
        "{<a><p>|<q>/<r>|<s><b>.}",
        "ok 8 - (line <a> (alt (alt <p> (seq <q> <r>)) <s>) <b>)",
    ),
    (
        "{<a><p>/(<q>/<r>)<b>.}",
        "ok 6 - (line <a> (seq <p> (seq <q> <r>)) <b>)",
    ),
    (
        "{<a>(<p>|<q>)/<r><b>.}",
        "ok 6 - (line <a> (seq (alt <p> <q>) <r>) <b>)",
    ),
    // An inverse covers a star, unless brackets part them.
    ("{<a>^<p>*<b>.}", "ok 4 - (line <a> (inv (star <p>)) <b>)"),
    ("{<a>(^<p>)*<b>.}", "ok 4 - (line <a> (star (inv <p>)) <b>)"),
    (
        "{<a>^(^<p>)/(<q>*)*<b>.}",
        "ok 8 - (line <a> (seq (inv (inv <p>)) (star (star <q>))) <b>)",
    ),
    // A negated set keeps its order, and what it repeats.
    ("{<a>!<p><b>.}", "ok 3 - (line <a> (not <p>) <b>)"),
    ("{<a>!(<p>)<b>.}", "ok 3 - (line <a> (not <p>) <b>)"),
    (
        "{<a>^!(<q>|<p>|<q>)*<b>.}",
        "ok 7 - (line <a> (inv (star (not <q> <p> <q>))) <b>)",
    ),
    // Ends are terms of both kinds, of any bytes that these may have.
    (
        "{\"<é>\"<é#?>\"?x\".}",
        "ok 2 - (line \"<é>\" <é#?> \"?x\")",
    ),
];

#[test]
fn questions(rt: HostRuntime) -> Result<(), Fail> {
    let mut bench = Bench::new(&rt, rt.alloc())?;
    for (text, line) in ROWS.iter() {
        bench.check_line(text, line, text)?;
    }
    Ok(())
}
