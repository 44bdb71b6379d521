use crate::case::Case;
use shelf_telling::Bench;
use std::alloc::AllocError;
use std::test::Fail;
use weights::Count;

// A page with so many triples of one predicate.
fn spell_page(count: usize, file: &mut String) -> Result<(), AllocError> {
    file.clear();
    file.push_str("@page <m:1>\n")?;
    for at in 0..count {
        writeln!(file, "<m:1> <p> <s:{at:03}> .")?;
    }
    Ok(())
}

// The objects of such a page, each behind what stands before it.
fn spell_objects(before: &str, count: usize, line: &mut String) -> Result<(), AllocError> {
    for at in 0..count {
        write!(line, "{before}<s:{at:03}>")?;
    }
    Ok(())
}

// The answer to a question over a page of so many triples.
fn answer(
    bench: &mut Bench,
    question: &str,
    count: usize,
    out: &mut Vec<u8>,
) -> anyhow::Result<()> {
    let mut file = String::new(*out.allocator());
    spell_page(count, &mut file)?;
    let case = Case {
        question,
        file: file.as_str(),
        recorded: "m:1",
    };
    case.answer(bench, &Count, out)
}

// A question, over how many triples it is asked, and its answer.
static ROWS: [(&str, usize, &str); 12] = [
    // Too many objects do not matter where both ends are known.
    ("{ <m:1> <p> <s:007> . }", 300, "needs 1 <m:1> rows 1 1:"),
    ("{ <m:1> !<q> <s:299> . }", 300, "needs 1 <m:1> rows 1 1:"),
    ("{ <m:1> <p> <s:300> . }", 300, "needs 1 <m:1> rows 0"),
    // They do where an end is open, also in a part of what is asked.
    ("{ <m:1> <p> ?x . }", 257, "too many"),
    ("{ <m:1> <p>/<q> <m:2> . }", 257, "too many"),
    ("{ <m:1> <p> ?x . ?x <q> <m:2> . }", 257, "too many"),
    ("{ OPTIONAL { <m:1> <p> ?x . } }", 256, "too many"),
    (
        "{ <m:2> <q> ?x . OPTIONAL { <m:1> <p> ?y . } }",
        257,
        "needs 1 <m:2> rows 0",
    ),
    (
        "{ { <m:1> <p> ?x . } UNION { <m:2> <p>* ?x . } }",
        256,
        "too many",
    ),
    // A star reaches its own end too, and all that it reaches counts, whatever its far end.
    ("{ <m:1> <p>* ?x . }", 256, "too many"),
    ("{ <m:1> <p>* <s:007> . }", 256, "too many"),
    // Nothing is left of what was too many.
    ("{ <m:1> <q> ?x . }", 300, "needs 1 <m:1> rows 0"),
];

#[test]
fn crowds(rt: HostRuntime) -> Result<(), Fail> {
    let mut bench = Bench::new(rt.alloc())?;
    let mut out = Vec::new(rt.alloc());
    for (question, count, line) in ROWS.iter() {
        answer(&mut bench, question, *count, &mut out)?;
        assert_eq!(rt; out.as_slice(), line.as_bytes(), "{}", *question);
    }
    Ok(())
}

// As many as there may be: 256 objects, and a star over 255 of them.
#[test]
fn no_crowds(rt: HostRuntime) -> Result<(), Fail> {
    let mut bench = Bench::new(rt.alloc())?;
    let mut out = Vec::new(rt.alloc());
    let mut line = String::new(rt.alloc());
    answer(&mut bench, "{ <m:1> <p> ?x . }", 256, &mut out)?;
    line.push_str("needs 1 <m:1> rows 256")?;
    spell_objects(" 1:", 256, &mut line)?;
    assert_eq!(rt; out.as_slice(), line.as_bytes());
    line.clear();
    answer(&mut bench, "{ <m:1> <p>* ?x . }", 255, &mut out)?;
    line.push_str("needs 256 <m:1>")?;
    spell_objects(" ", 255, &mut line)?;
    line.push_str(" rows 256 1:<m:1>")?;
    spell_objects(" 1:", 255, &mut line)?;
    assert_eq!(rt; out.as_slice(), line.as_bytes());
    line.clear();
    answer(&mut bench, "{ <m:1> <p>* <s:254> . }", 255, &mut out)?;
    line.push_str("needs 256 <m:1>")?;
    spell_objects(" ", 255, &mut line)?;
    line.push_str(" rows 1 1:")?;
    assert_eq!(rt; out.as_slice(), line.as_bytes());
    Ok(())
}
