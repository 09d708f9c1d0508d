use crate::interface::Table;
use crate::layers::{Flip, Sum};
use crate::triplets::{Record, Triplets};

#[test]
fn blank_throughout(rt: HostRuntime) {
    let records = [Record::new(0, 0, 1_048_577)];
    let table = Triplets::new(1, 1, &records);
    assert_eq!(rt; table.place(0, 0), None);
    assert_eq!(rt; table.product(0, &[0]), None);
}

#[test]
fn sizes_are_cut(rt: HostRuntime) {
    let table = Triplets::new(-3, 65, &[]);
    assert_eq!(rt; table.height(), 0);
    assert_eq!(rt; table.width(), 64);
    assert_eq!(rt; table.product(0, &[0; 64]), None);
}

#[test]
fn first_record_counts(rt: HostRuntime) {
    let records = [
        Record::new(-1, 0, 9),
        Record::new(0, 64, 9),
        Record::new(0, 1, 1_048_576),
        Record::new(0, 1, 8),
    ];
    let table = Triplets::new(1, 2, &records);
    assert_eq!(rt; table.place(0, 0), Some(0));
    assert_eq!(rt; table.product(0, &[5, 2]), Some(2_097_152));
}

#[test]
fn layers(rt: HostRuntime) {
    let records = [Record::new(0, 1, 1_048_576), Record::new(1, 0, 3)];
    let table = Triplets::new(2, 3, &records);
    let flip = Flip::over(table);
    assert_eq!(rt; flip.product(0, &[10, 100]), Some(300));
    let sum = Sum::of(flip, table);
    assert_eq!(rt; sum.width(), 2);
    assert_eq!(rt; sum.place(1, 0), None);
}
