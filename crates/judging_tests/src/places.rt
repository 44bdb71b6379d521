use judging::Judged;
use question::Draft;
use std::test::Fail;

// The judged place holds the last question that was bounded, whatever is read or refused behind it. Questions differ in their number of variables.
#[test]
fn kept(rt: HostRuntime) -> Result<(), Fail> {
    let mut draft = Draft::new(rt.alloc())?;
    let mut judged = Judged::new(rt.alloc())?;
    assert_eq!(rt; judged.question().variables(), 0);
    assert!(rt; draft.read(b"{<a><p>?x.}").is_ok());
    assert_eq!(rt; judged.question().variables(), 0);
    assert!(rt; judged.judge(&draft).is_ok());
    assert_eq!(rt; judged.question().variables(), 1);
    assert!(rt; draft.read(b"{?x<p>?y.}").is_ok());
    assert_eq!(rt; judged.question().variables(), 1);
    assert_eq!(rt;
        judged.judge(&draft).map_err(|refusal| refusal.number()),
        Err(7)
    );
    assert_eq!(rt; judged.question().variables(), 1);
    assert_eq!(rt; draft.question().variables(), 2);
    assert!(rt; draft.read(b"{").is_err());
    assert!(rt; draft.read(b"{<a><p>?x.?x<p>?y.?y<p>?z.}").is_ok());
    assert!(rt; judged.judge(&draft).is_ok());
    assert_eq!(rt; judged.question().variables(), 3);
    Ok(())
}
