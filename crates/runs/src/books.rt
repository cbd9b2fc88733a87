// Two small books for the tests, as lists of numbers without names.
use numbers::lists::{Names, RuleLists};

const NONE: [u32; 4] = [0; 4];

// 1 delivered, 2 release, 3 hold, 4 query
const INVOICE: [i32; 30] = [
    0, 1, 1, 0, 0, // delivered
    0, 1, 2, 0, 2, 1, -3, // released if delivered and not held
    0, 1, 3, 0, 1, -2, // held if not released
    1, 1, 4, 0, 1, 1, // what was delivered may be queried
    0, 0, 0, 2, 2, 4, // never both released and queried
];

const INVOICE_STARTS: [u32; 5] = [0, 5, 12, 18, 24];

// 1 from 2, and 2 from 1
const CIRCLE: [i32; 12] = [0, 1, 1, 0, 1, 2, 0, 1, 2, 0, 1, 1];

const CIRCLE_STARTS: [u32; 2] = [0, 6];

fn lent<'a>(atoms: u32, none: &'a [u32], integers: &'a [i32], starts: &'a [u32]) -> RuleLists<'a> {
    let names = Names {
        text: &[],
        starts: none,
        lengths: none,
    };
    RuleLists {
        atoms,
        integers,
        starts,
        names,
    }
}

pub(crate) fn invoice() -> RuleLists<'static> {
    lent(4, &NONE, &INVOICE, &INVOICE_STARTS)
}

pub(crate) fn circle() -> RuleLists<'static> {
    lent(2, &NONE[..2], &CIRCLE, &CIRCLE_STARTS)
}
