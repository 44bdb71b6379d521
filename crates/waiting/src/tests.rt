// Rows wait, are taken, and make way for others.
use crate::Waiting;
use rows::Row;
use std::alloc::AllocError;
use tables::{Entry, Table};
use weights::{Count, Presence};

fn entry(number: u16, weight: u32) -> Entry {
    let row = Row {
        places: [number, 0, 0, 0, 0, 0, 0, 0],
    };
    Entry { row, weight }
}

#[test]
fn taken_by_weight_and_row(rt: HostRuntime) -> Result<(), AllocError> {
    let mut table = Table::new(rt.alloc())?;
    assert!(rt; table.push(entry(3, 1)).is_ok());
    assert!(rt; table.push(entry(2, 5)).is_ok());
    assert!(rt; table.push(entry(1, 1)).is_ok());
    assert!(rt; table.push(entry(4, 0)).is_ok());
    let mut waiting = Waiting::new(rt.alloc())?;
    assert!(rt; waiting.take().is_err_and(|refusal| refusal.number() == 13));
    waiting.replace(&Count, &table);
    assert_eq!(rt; waiting.len(), 3);
    assert!(rt;
        waiting
            .take()
            .is_ok_and(|first| first.row.places[0] == 2 && first.weight == 5)
    );
    assert!(rt; waiting.take().is_ok_and(|first| first.row.places[0] == 1));
    waiting.replace(&Presence, &table);
    assert!(rt; waiting.take().is_ok_and(|first| first.row.places[0] == 1));
    assert!(rt; waiting.take().is_ok_and(|first| first.row.places[0] == 2));
    assert!(rt;
        waiting
            .entries()
            .first()
            .is_some_and(|last| last.row.places[0] == 3)
    );
    assert!(rt; waiting.take().is_ok());
    assert!(rt; waiting.take().is_err());
    Ok(())
}
