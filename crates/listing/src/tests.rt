// The list of the docs, byte by byte.
use crate::{Names, list};
use lexicon::Lexicon;
use question::Draft;
use rows::Row;
use std::test::Fail;
use tables::Entry;
use terms::Kind;

#[test]
fn written(rt: HostRuntime) -> Result<(), Fail> {
    let mut draft = Draft::new(rt.alloc())?;
    let mut names = Names::reserve(rt.alloc())?;
    let mut terms = Lexicon::reserve(rt.alloc())?;
    let mut buffer = [b'_'; 20];
    assert_eq!(rt; list(&names, &[], &terms, &mut buffer).ok(), Some(7));
    assert_eq!(rt; buffer.as_slice(), b"weight\n_____________".as_slice());
    assert!(rt; draft.read(b"{ <m:1> <p:alt>/<p:val> ?v . }").is_ok());
    names.take(draft.question());
    assert_eq!(rt; terms.enter(Kind::Literal, b"10u"), Some(1));
    let row = Row {
        places: [1, 0, 0, 0, 0, 0, 0, 0],
    };
    let rows = [Entry { row, weight: 2 }];
    assert_eq!(rt; list(&names, &rows, &terms, &mut buffer).ok(), Some(18));
    assert_eq!(rt; buffer.as_slice(), b"?v\tweight\n\"10u\"\t2\n__".as_slice());
    let short = list(&names, &rows, &terms, &mut buffer[..17]);
    assert_eq!(rt; short.map_err(|refusal| refusal.number()), Err(15));
    Ok(())
}
