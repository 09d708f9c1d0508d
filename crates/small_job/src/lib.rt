//! J, the small job that programs run on: two ropes and one row.
#![tactic(auto)]

use opening::Lists;
use table::Record;

/// G = (2, 0; 0, 2).
pub const CURVATURE: [Record; 2] = [
    Record {
        row: 0,
        column: 0,
        number: 2,
    },
    Record {
        row: 1,
        column: 1,
        number: 2,
    },
];

/// The row (1, 1).
pub const ROW: [Record; 2] = [
    Record {
        row: 0,
        column: 0,
        number: 1,
    },
    Record {
        row: 0,
        column: 1,
        number: 1,
    },
];

/// Costs (-4, -6), bounds 0 to 10, the row from 0 to 3, slip 0.
pub const LISTS: Lists<'static> = Lists {
    c: &[-4, -6],
    l: &[0, 0],
    u: &[10, 10],
    lo: &[0],
    hi: &[3],
    slip: &[0, 0, 0, 0],
};
