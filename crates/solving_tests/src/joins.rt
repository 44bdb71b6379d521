use rows::{Row, ascending, blank, compatible, merge, same};

// Two rows, whether they are compatible, and their merge.
const ROWS: [([u16; 8], [u16; 8], bool, [u16; 8]); 6] = [
    ([0; 8], [0; 8], true, [0; 8]),
    (
        [3, 0, 0, 0, 0, 0, 0, 0],
        [0, 4, 0, 0, 0, 0, 0, 9],
        true,
        [3, 4, 0, 0, 0, 0, 0, 9],
    ),
    (
        [3, 4, 0, 0, 0, 0, 0, 0],
        [3, 0, 5, 0, 0, 0, 0, 0],
        true,
        [3, 4, 5, 0, 0, 0, 0, 0],
    ),
    // They differ in the first place, and in the last one only.
    (
        [3, 0, 0, 0, 0, 0, 0, 0],
        [4, 0, 0, 0, 0, 0, 0, 0],
        false,
        [3, 0, 0, 0, 0, 0, 0, 0],
    ),
    (
        [1, 2, 3, 4, 5, 6, 7, 8],
        [1, 2, 3, 4, 5, 6, 7, 9],
        false,
        [1, 2, 3, 4, 5, 6, 7, 8],
    ),
    (
        [0, 0, 0, 0, 0, 0, 0, 65_535],
        [1, 0, 0, 0, 0, 0, 0, 65_535],
        true,
        [1, 0, 0, 0, 0, 0, 0, 65_535],
    ),
];

#[test]
fn joins(rt: HostRuntime) {
    for (left, right, agree, both) in ROWS {
        let left = Row { places: left };
        let right = Row { places: right };
        assert!(rt; compatible(left, right) == agree && compatible(right, left) == agree);
        assert!(rt; same(merge(left, right), Row { places: both }));
    }
}

// Rows that differ in one place, in different terms or since only one gives a term there.
const APART: [([u16; 8], [u16; 8]); 4] = [
    ([3, 0, 0, 0, 0, 0, 0, 0], [4, 0, 0, 0, 0, 0, 0, 0]),
    ([1, 2, 3, 4, 5, 6, 7, 8], [1, 2, 3, 4, 5, 6, 7, 9]),
    ([3, 4, 0, 0, 0, 0, 0, 0], [3, 0, 0, 0, 0, 0, 0, 0]),
    ([0; 8], [0, 0, 0, 0, 0, 0, 0, 1]),
];

#[test]
fn sameness(rt: HostRuntime) {
    for (left, right) in APART {
        let left = Row { places: left };
        let right = Row { places: right };
        assert!(rt; !same(left, right) && !same(right, left));
        assert!(rt; same(left, left) && same(right, right));
    }
    assert!(rt; same(blank(), Row { places: [0; 8] }));
}

// Rows in their order. Unbound comes first, and an earlier place decides.
const ORDERED: [[u16; 8]; 5] = [
    [0; 8],
    [0, 0, 0, 0, 0, 0, 0, 1],
    [0, 9, 0, 0, 0, 0, 0, 0],
    [1, 0, 0, 0, 0, 0, 0, 0],
    [1, 0, 0, 0, 0, 0, 0, 65_535],
];

#[test]
fn ordered(rt: HostRuntime) {
    for (at, left) in ORDERED.iter().enumerate() {
        for (behind, right) in ORDERED.iter().enumerate() {
            let in_order = ascending(Row { places: *left }, Row { places: *right });
            assert!(rt; in_order == (at <= behind));
        }
    }
}
