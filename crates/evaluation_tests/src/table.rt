use crate::case::Case;
use shelf_telling::Bench;
use std::test::Fail;
use weights::{Count, Presence};

// Two substitutes of one value. The page of <m:3> also says something of <m:2>, which is not in the context of <m:2>.
const PARTS: &str = "@page <m:1>\n<m:1> <p:alt> <m:2> .\n<m:1> <p:alt> <m:3> .\n\
    @page <m:2>\n<m:2> <p:val> \"10u\" .\n\
    @page <m:3>\n<m:3> <p:val> \"10u\" .\n<m:2> <p:val> \"22u\" .\n\
    @page <m:4>\n<m:4> <p:val> \"47u\" .\n";

// A board with two parts that have one substitute, which fits two feeders.
const FEEDERS: &str = "@page <b:7>\n<b:7> <p:place> <c:1> .\n<b:7> <p:place> <c:2> .\n\
    @page <c:1>\n<c:1> <p:alt> <c:3> .\n\
    @page <c:2>\n<c:2> <p:alt> <c:3> .\n\
    @page <c:3>\n<c:3> <p:fits> <f:1> .\n<c:3> <p:fits> <f:2> .\n";

// A triple that is listed twice, and one term that two predicates lead to.
const TWICE: &str = "@page <m:1>\n<m:1> <p> <m:2> .\n<m:1> <p> <m:2> .\n\
    <m:1> <q> <m:2> .\n<m:1> <r> <m:3> .\n";

// Two ways apart, and two ways from either of their ends, to one end.
const NET: &str = "@page <m:1>\n<m:1> <p> <a:1> .\n<m:1> <p> <a:2> .\n\
    @page <a:1>\n<a:1> <q> <b:1> .\n<a:1> <q> <b:2> .\n\
    @page <a:2>\n<a:2> <q> <b:1> .\n<a:2> <q> <b:2> .\n\
    @page <b:1>\n<b:1> <r> <c:1> .\n\
    @page <b:2>\n<b:2> <r> <c:1> .\n";

const NET_PAGES: &str = "m:1 a:1 a:2 b:1 b:2";

// Two steps that lead round, and one that leads out.
const ROUND: &str = "@page <m:1>\n<m:1> <p> <m:2> .\n\
    @page <m:2>\n<m:2> <p> <m:1> .\n<m:2> <p> \"end\" .\n";

// A case, its answer under count, and under presence. One bench answers them all, so over other shelves than before.
static ROWS: [(Case, &str, &str); 36] = [
    // The file of four parts.
    (
        Case {
            question: "{ <m:1> <p:alt>/<p:val> ?v . }",
            file: PARTS,
            recorded: "m:1 m:2 m:3 m:4",
        },
        "needs 3 <m:1> <m:2> <m:3> rows 1 2:\"10u\"",
        "needs 3 <m:1> <m:2> <m:3> rows 1 1:\"10u\"",
    ),
    // What was found before is not on this shelf.
    (
        Case {
            question: "{ <m:1> <p:alt>/<p:val> ?v . }",
            file: PARTS,
            recorded: "",
        },
        "needs 1 <m:1> rows 0",
        "needs 1 <m:1> rows 0",
    ),
    (
        Case {
            question: "{ <m:1> <p:alt>/<p:val> ?v . }",
            file: PARTS,
            recorded: "m:3 m:1",
        },
        "needs 3 <m:1> <m:2> <m:3> rows 1 1:\"10u\"",
        "needs 3 <m:1> <m:2> <m:3> rows 1 1:\"10u\"",
    ),
    (
        Case {
            question: "{ <m:1> <p:alt>* ?x . }",
            file: PARTS,
            recorded: "m:1 m:2 m:3 m:4",
        },
        "needs 3 <m:1> <m:2> <m:3> rows 3 1:<m:1> 1:<m:2> 1:<m:3>",
        "needs 3 <m:1> <m:2> <m:3> rows 3 1:<m:1> 1:<m:2> 1:<m:3>",
    ),
    (
        Case {
            question: "{ ?x ^<p:alt> <m:1> . }",
            file: PARTS,
            recorded: "m:1 m:2 m:3 m:4",
        },
        "needs 1 <m:1> rows 2 1:<m:2> 1:<m:3>",
        "needs 1 <m:1> rows 2 1:<m:2> 1:<m:3>",
    ),
    (
        Case {
            question: "{ <m:3> !<p:alt> ?x . }",
            file: PARTS,
            recorded: "m:1 m:2 m:3 m:4",
        },
        "needs 1 <m:3> rows 1 1:\"10u\"",
        "needs 1 <m:3> rows 1 1:\"10u\"",
    ),
    (
        Case {
            question: "{ }",
            file: PARTS,
            recorded: "m:1 m:2 m:3 m:4",
        },
        "needs 0 rows 1 1:",
        "needs 0 rows 1 1:",
    ),
    // An optional part may be left out: the rows without it are possible, and no solutions where there is a value.
    (
        Case {
            question: "{ <m:1> <p:alt> ?x . OPTIONAL { ?x <p:val> ?v . } }",
            file: PARTS,
            recorded: "m:1 m:2 m:3 m:4",
        },
        "needs 3 <m:1> <m:2> <m:3> rows 4 0:<m:2>,- 0:<m:3>,- 1:<m:2>,\"10u\" 1:<m:3>,\"10u\"",
        "needs 3 <m:1> <m:2> <m:3> rows 4 0:<m:2>,- 0:<m:3>,- 1:<m:2>,\"10u\" 1:<m:3>,\"10u\"",
    ),
    (
        Case {
            question: "{ <m:1> <p:alt> ?x . OPTIONAL { ?x <p:val> ?v . } }",
            file: PARTS,
            recorded: "m:1 m:3",
        },
        "needs 3 <m:1> <m:2> <m:3> rows 3 0:<m:3>,- 1:<m:2>,- 1:<m:3>,\"10u\"",
        "needs 3 <m:1> <m:2> <m:3> rows 3 0:<m:3>,- 1:<m:2>,- 1:<m:3>,\"10u\"",
    ),
    // The value of <m:4> is not handed into the optional part.
    (
        Case {
            question: "{ { <m:1> <p:alt> ?x . OPTIONAL { ?x <p:val> ?v . } } <m:4> <p:val> ?v . }",
            file: PARTS,
            recorded: "m:1 m:2 m:3 m:4",
        },
        "needs 4 <m:1> <m:2> <m:3> <m:4> rows 2 0:<m:2>,\"47u\" 0:<m:3>,\"47u\"",
        "needs 4 <m:1> <m:2> <m:3> <m:4> rows 2 0:<m:2>,\"47u\" 0:<m:3>,\"47u\"",
    ),
    (
        Case {
            question: "{ <m:4> <p:val> ?v . { <m:1> <p:alt> ?x . OPTIONAL { ?x <p:val> ?v . } } }",
            file: PARTS,
            recorded: "m:1 m:2 m:3 m:4",
        },
        "needs 4 <m:1> <m:2> <m:3> <m:4> rows 2 0:\"47u\",<m:2> 0:\"47u\",<m:3>",
        "needs 4 <m:1> <m:2> <m:3> <m:4> rows 2 0:\"47u\",<m:2> 0:\"47u\",<m:3>",
    ),
    (
        Case {
            question: "{ <m:1> <p:alt>|<p:alt> ?x . }",
            file: PARTS,
            recorded: "m:1 m:2 m:3 m:4",
        },
        "needs 1 <m:1> rows 2 2:<m:2> 2:<m:3>",
        "needs 1 <m:1> rows 2 1:<m:2> 1:<m:3>",
    ),
    (
        Case {
            question: "{ { <m:1> <p:alt> ?x . } UNION { <m:1> <p:alt> ?x . } }",
            file: PARTS,
            recorded: "m:1 m:2 m:3 m:4",
        },
        "needs 1 <m:1> rows 2 2:<m:2> 2:<m:3>",
        "needs 1 <m:1> rows 2 1:<m:2> 1:<m:3>",
    ),
    (
        Case {
            question: "{ \"10u\" <p:alt>* ?x . }",
            file: PARTS,
            recorded: "m:1 m:2 m:3 m:4",
        },
        "needs 0 rows 1 1:\"10u\"",
        "needs 0 rows 1 1:\"10u\"",
    ),
    // The capacitor that filled two feeders, asked in both orders.
    (
        Case {
            question: "{ <b:7> <p:place>/<p:alt> ?c . ?f ^<p:fits> ?c . }",
            file: FEEDERS,
            recorded: "b:7 c:1 c:2 c:3",
        },
        "needs 4 <b:7> <c:1> <c:2> <c:3> rows 2 2:<c:3>,<f:1> 2:<c:3>,<f:2>",
        "needs 4 <b:7> <c:1> <c:2> <c:3> rows 2 1:<c:3>,<f:1> 1:<c:3>,<f:2>",
    ),
    (
        Case {
            question: "{ ?f ^<p:fits> ?c . <b:7> <p:place>/<p:alt> ?c . }",
            file: FEEDERS,
            recorded: "b:7 c:1 c:2 c:3",
        },
        "needs 4 <b:7> <c:1> <c:2> <c:3> rows 2 2:<f:1>,<c:3> 2:<f:2>,<c:3>",
        "needs 4 <b:7> <c:1> <c:2> <c:3> rows 2 1:<f:1>,<c:3> 1:<f:2>,<c:3>",
    ),
    // A triple that is listed twice counts once.
    (
        Case {
            question: "{ <m:1> <p> ?x . }",
            file: TWICE,
            recorded: "m:1",
        },
        "needs 1 <m:1> rows 1 1:<m:2>",
        "needs 1 <m:1> rows 1 1:<m:2>",
    ),
    // So does a negated set where several predicates pass, and an alternative counts each.
    (
        Case {
            question: "{ <m:1> !<r> ?x . }",
            file: TWICE,
            recorded: "m:1",
        },
        "needs 1 <m:1> rows 1 1:<m:2>",
        "needs 1 <m:1> rows 1 1:<m:2>",
    ),
    (
        Case {
            question: "{ <m:1> !(<p>|<r>) ?x . }",
            file: TWICE,
            recorded: "m:1",
        },
        "needs 1 <m:1> rows 1 1:<m:2>",
        "needs 1 <m:1> rows 1 1:<m:2>",
    ),
    (
        Case {
            question: "{ <m:1> !(<p>|<q>|<r>) ?x . }",
            file: TWICE,
            recorded: "m:1",
        },
        "needs 1 <m:1> rows 0",
        "needs 1 <m:1> rows 0",
    ),
    (
        Case {
            question: "{ <m:1> <p>|<q> ?x . }",
            file: TWICE,
            recorded: "m:1",
        },
        "needs 1 <m:1> rows 1 2:<m:2>",
        "needs 1 <m:1> rows 1 1:<m:2>",
    ),
    // A name at both ends is one term.
    (
        Case {
            question: "{ <m:1> <p> ?x . ?x <p> ?x . }",
            file: TWICE,
            recorded: "m:1 m:2",
        },
        "needs 2 <m:1> <m:2> rows 0",
        "needs 2 <m:1> <m:2> rows 0",
    ),
    // What is asked again from the same terms has the same rows again.
    (
        Case {
            question: "{ <m:1> <p>/<q>/<r> ?x . }",
            file: NET,
            recorded: NET_PAGES,
        },
        "needs 5 <a:1> <a:2> <b:1> <b:2> <m:1> rows 1 4:<c:1>",
        "needs 5 <a:1> <a:2> <b:1> <b:2> <m:1> rows 1 1:<c:1>",
    ),
    (
        Case {
            question: "{ <m:1> <p>/(<q>/<r>) ?x . }",
            file: NET,
            recorded: NET_PAGES,
        },
        "needs 5 <a:1> <a:2> <b:1> <b:2> <m:1> rows 1 4:<c:1>",
        "needs 5 <a:1> <a:2> <b:1> <b:2> <m:1> rows 1 1:<c:1>",
    ),
    (
        Case {
            question: "{ <m:1> <p> ?x . ?x <q>/<r> ?y . }",
            file: NET,
            recorded: NET_PAGES,
        },
        "needs 5 <a:1> <a:2> <b:1> <b:2> <m:1> rows 2 2:<a:1>,<c:1> 2:<a:2>,<c:1>",
        "needs 5 <a:1> <a:2> <b:1> <b:2> <m:1> rows 2 1:<a:1>,<c:1> 1:<a:2>,<c:1>",
    ),
    (
        Case {
            question: "{ <m:1> <p>/<q> ?x . OPTIONAL { ?x <r> ?y . } }",
            file: NET,
            recorded: "m:1 a:1 a:2 b:2",
        },
        "needs 5 <a:1> <a:2> <b:1> <b:2> <m:1> rows 3 0:<b:2>,- 2:<b:1>,- 2:<b:2>,<c:1>",
        "needs 5 <a:1> <a:2> <b:1> <b:2> <m:1> rows 3 0:<b:2>,- 1:<b:1>,- 1:<b:2>,<c:1>",
    ),
    (
        Case {
            question: "{ <m:1> <p> ?x . ?x <q> ?y . ?y <r> ?z . }",
            file: NET,
            recorded: NET_PAGES,
        },
        "needs 5 <a:1> <a:2> <b:1> <b:2> <m:1> rows 4 1:<a:1>,<b:1>,<c:1> 1:<a:1>,<b:2>,<c:1> \
            1:<a:2>,<b:1>,<c:1> 1:<a:2>,<b:2>,<c:1>",
        "needs 5 <a:1> <a:2> <b:1> <b:2> <m:1> rows 4 1:<a:1>,<b:1>,<c:1> 1:<a:1>,<b:2>,<c:1> \
            1:<a:2>,<b:1>,<c:1> 1:<a:2>,<b:2>,<c:1>",
    ),
    // One path between other terms is another question.
    (
        Case {
            question: "{ <a:1> <q> ?x . <a:2> <q> ?x . <a:1> <q> <b:1> . }",
            file: NET,
            recorded: "a:1 b:1 b:2",
        },
        "needs 2 <a:1> <a:2> rows 0",
        "needs 2 <a:1> <a:2> rows 0",
    ),
    // From the right end.
    (
        Case {
            question: "{ ?x ^<r>/^<q> <a:1> . }",
            file: NET,
            recorded: NET_PAGES,
        },
        "needs 3 <a:1> <b:1> <b:2> rows 1 2:<c:1>",
        "needs 3 <a:1> <b:1> <b:2> rows 1 1:<c:1>",
    ),
    // Stars: round and back, with an end that is fixed, and from the right end.
    (
        Case {
            question: "{ <m:1> <p>* ?x . }",
            file: ROUND,
            recorded: "m:1 m:2",
        },
        "needs 2 <m:1> <m:2> rows 3 1:\"end\" 1:<m:1> 1:<m:2>",
        "needs 2 <m:1> <m:2> rows 3 1:\"end\" 1:<m:1> 1:<m:2>",
    ),
    (
        Case {
            question: "{ <m:1> <p>* \"end\" . }",
            file: ROUND,
            recorded: "m:1 m:2",
        },
        "needs 2 <m:1> <m:2> rows 1 1:",
        "needs 2 <m:1> <m:2> rows 1 1:",
    ),
    (
        Case {
            question: "{ <m:1> <p>* <m:1> . }",
            file: ROUND,
            recorded: "",
        },
        "needs 1 <m:1> rows 1 1:",
        "needs 1 <m:1> rows 1 1:",
    ),
    (
        Case {
            question: "{ <m:1> <p>* <m:3> . }",
            file: ROUND,
            recorded: "m:1 m:2",
        },
        "needs 2 <m:1> <m:2> rows 0",
        "needs 2 <m:1> <m:2> rows 0",
    ),
    (
        Case {
            question: "{ ?x (^<p>)* <m:2> . }",
            file: ROUND,
            recorded: "m:1 m:2",
        },
        "needs 2 <m:1> <m:2> rows 3 1:\"end\" 1:<m:1> 1:<m:2>",
        "needs 2 <m:1> <m:2> rows 3 1:\"end\" 1:<m:1> 1:<m:2>",
    ),
    (
        Case {
            question: "{ <m:1> (<p>/<p>)* ?x . }",
            file: ROUND,
            recorded: "m:1 m:2",
        },
        "needs 2 <m:1> <m:2> rows 2 1:\"end\" 1:<m:1>",
        "needs 2 <m:1> <m:2> rows 2 1:\"end\" 1:<m:1>",
    ),
    // Pages that are absent or broken have no triples.
    (
        Case {
            question: "{ <m:1> <p:alt>/<p:val> ?v . }",
            file: "@page <m:1>\n<m:1> <p:alt> <m:2> .\n<m:1> <p:alt> <m:3> .\n@page <m:2>\noops\n",
            recorded: "m:1 m:2 m:3",
        },
        "needs 3 <m:1> <m:2> <m:3> rows 0",
        "needs 3 <m:1> <m:2> <m:3> rows 0",
    ),
];

#[test]
fn small_cases(rt: HostRuntime) -> Result<(), Fail> {
    let mut bench = Bench::new(rt.alloc())?;
    let mut out = Vec::new(rt.alloc());
    for (case, counted, present) in ROWS.iter() {
        case.answer(&mut bench, &Count, &mut out)?;
        assert_eq!(rt; out.as_slice(), counted.as_bytes(), "{}", case.question);
        case.answer(&mut bench, &Presence, &mut out)?;
        assert_eq!(rt; out.as_slice(), present.as_bytes(), "{}", case.question);
    }
    Ok(())
}
