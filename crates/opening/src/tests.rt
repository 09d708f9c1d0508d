use crate::lists::Lists;
use crate::opening::check_opening;
use crate::refusal::{List, Refusal};
use table::{Record, Triplets};

fn one_rope(slip: i64) -> Result<(), Refusal> {
    let records = [Record::new(0, 0, 3)];
    let g = Triplets::new(1, 1, &records);
    let a = Triplets::new(0, 7, &records);
    let low = [-32_768];
    let high = [32_768];
    let none: [i64; 0] = [];
    let slips = [slip];
    let lists = Lists {
        c: &low,
        l: &low,
        u: &high,
        lo: &none,
        hi: &none,
        slip: &slips,
    };
    check_opening(&g, &a, &lists)
}

#[test]
fn slip_at_its_edge(rt: HostRuntime) {
    let beyond = Refusal::Limit {
        list: List::Slip,
        index: 0,
    };
    assert_eq!(rt; one_rope(1_773), Ok(()));
    assert_eq!(rt; one_rope(-1_773), Ok(()));
    assert_eq!(rt; one_rope(1_774), Err(Refusal::Slip { row: 0 }));
    assert_eq!(rt; one_rope(131_073), Err(beyond));
}

#[test]
fn asymmetry_before_lengths(rt: HostRuntime) {
    let records = [
        Record::new(0, 0, 3),
        Record::new(1, 0, 1),
        Record::new(1, 1, 3),
    ];
    let g = Triplets::new(2, 2, &records);
    let a = Triplets::new(0, 0, &records);
    let short = [0];
    let lists = Lists {
        c: &short,
        l: &short,
        u: &short,
        lo: &short,
        hi: &short,
        slip: &short,
    };
    let crooked = Refusal::Asymmetric { row: 0, column: 1 };
    assert_eq!(rt; check_opening(&g, &a, &lists), Err(crooked));
}
