use std::test::Fail;
use weights::{Count, Presence, Weight};

const TOP: u32 = 2_147_483_647;

// Two weights, their sum, their product, and whether the left one comes first or they tie.
type Case = (u32, u32, u32, u32, bool);

const COUNTS: [Case; 8] = [
    (0, 0, 0, 0, true),
    (0, 5, 5, 0, false),
    (1, 5, 6, 5, false),
    (7, 6, 13, 42, true),
    // Sums and products stop at the top, exactly.
    (TOP - 1, 1, TOP, TOP - 1, true),
    (TOP, 1, TOP, TOP, true),
    (46_341, 46_341, 92_682, TOP, true),
    (TOP, TOP, TOP, TOP, true),
];

const PRESENCES: [Case; 4] = [
    (0, 0, 0, 0, true),
    (0, 1, 1, 0, true),
    (1, 0, 1, 0, true),
    (1, 1, 1, 1, true),
];

fn check(holds: bool, note: &'static str) -> Result<(), Fail> {
    if holds { Ok(()) } else { Err(Fail::new(note)) }
}

fn check_kind(kind: &impl Weight, cases: &[Case]) -> Result<(), Fail> {
    for (left, right, sum, product, first) in cases {
        check(
            kind.sum(*left, *right) == *sum && kind.product(*left, *right) == *product,
            "a sum or a product is another",
        )?;
        check(
            kind.first(*left, *right) == *first && kind.is_zero(*left) == (*left == 0),
            "an order or a zero is another",
        )?;
    }
    check(
        kind.zero() == 0 && kind.one() == 1,
        "zero or one is another",
    )
}

#[test]
fn counts(_rt: HostRuntime) -> Result<(), Fail> {
    check_kind(&Count, &COUNTS)
}

#[test]
fn presences(_rt: HostRuntime) -> Result<(), Fail> {
    check_kind(&Presence, &PRESENCES)
}
