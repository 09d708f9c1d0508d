//! Cases on what lies below a plan: cards, tables, opening and evaluation. The stored output was written by hand from the rules.
#![tactic(auto)]

use anyhow::anyhow;
use card::{CardTable, Contents, Numbers, Sizes, check_card};
use evaluate::{Pair, Terms, Unmet, check_rows, cost, floor, refutes};
use opening::{Lists, Refusal, check_opening};
use small_job::LISTS;
use std::io;
use table::{Flip, Record, Sum, Table, Triplets};

/// Prints a table's sizes and its places, row by row, a blank as `-`.
fn print_table<T: Table>(rt: &HostRuntime, name: &str, table: &T) -> io::Result<()> {
    let height = table.height();
    let width = table.width();
    println!(rt; "{name}: {height} by {width}")?;
    // A table is asked by place, so its rows and columns are counted.
    for i in 0..height.min(2) {
        for j in 0..width.min(2) {
            match table.place(i, j) {
                Some(z) => print!(rt; " {z}")?,
                None => print!(rt; " -")?,
            }
        }
        println!(rt; "")?;
    }
    Ok(())
}

fn print_product<T: Table>(rt: &HostRuntime, table: &T, row: usize, xs: &[i64]) -> io::Result<()> {
    match table.product(row, xs) {
        Some(z) => println!(rt; "product of row {row}: {z}"),
        None => println!(rt; "product of row {row}: -"),
    }
}

/// The two-rope job: G = (2, 0; 0, 2), c = (-4, -6), bounds 0 to 10, row (1, 1) from 0 to 3, slip 0.
fn two_ropes() -> anyhow::Result<Contents<'static>> {
    let sizes = Sizes::new(2, 1).ok_or_else(|| anyhow!("the two-rope job has other sizes"))?;
    let numbers = Numbers {
        curvature: &[2, 0, 0, 2],
        rows: &[1, 1],
        costs: &[-4, -6],
        bounds: &[0, 0, 10, 10],
        limits: &[0, 3],
        slip: &[0, 0, 0, 0],
    };
    Contents::new(sizes, numbers).ok_or_else(|| anyhow!("the two-rope job has other counts"))
}

fn sizes(rt: &HostRuntime) -> io::Result<()> {
    print_table(rt, "negative height", &Triplets::new(-1, 2, &[]))?;
    print_table(rt, "sizes past 64", &Triplets::new(65, 1000, &[]))
}

fn blank_throughout(rt: &HostRuntime) -> io::Result<()> {
    let records = [Record::new(0, 0, 1048577)];
    print_table(rt, "blank throughout", &Triplets::new(1, 1, &records))
}

fn layers(rt: &HostRuntime, card: &[u8]) -> io::Result<()> {
    let records = [
        Record::new(0, 1, 5),
        Record::new(1, 0, -7),
        Record::new(0, 1, 9),
        Record::new(2, 0, 4),
        Record::new(-1, 0, 3),
    ];
    let triplets = Triplets::new(2, 3, &records);
    print_table(rt, "records out of range", &triplets)?;
    let sum = Sum {
        left: triplets,
        right: CardTable::curvature(card),
    };
    let flip = Flip { below: sum };
    print_table(rt, "flip of a sum", &flip)?;
    print_product(rt, &flip, 0, &[1, 2])?;
    print_product(rt, &flip, 2, &[1, 2])?;
    print_product(rt, &flip, 0, &[1, 1073741825])
}

fn card_tables(rt: &HostRuntime, card: &[u8]) -> io::Result<()> {
    let rows = CardTable::rows(card);
    print_table(rt, "section A", &rows)?;
    let end = card.len().min(524);
    let cut = CardTable::curvature(&card[0..end]);
    print_table(rt, "a card cut off in G", &cut)
}

fn print_opening(rt: &HostRuntime, name: &str, opened: Result<(), Refusal>) -> io::Result<()> {
    match opened {
        Ok(()) => println!(rt; "{name}: opens"),
        Err(refusal) => println!(rt; "{name}: {}", refusal.notice()),
    }
}

/// Opens a job of `n` ropes and no rows, with these records of G and lists that are all 0.
fn open_zeros(rt: &HostRuntime, name: &str, n: i64, records: &[Record]) -> anyhow::Result<()> {
    let g = Triplets::new(n, n, records);
    let a = Triplets::new(0, 0, &[]);
    let ropes = g.height();
    let list = vec![in rt.alloc(); 0i64; ropes]?;
    let slip = vec![in rt.alloc(); 0i64; ropes.saturating_mul(ropes)]?;
    let lists = Lists {
        c: list.as_slice(),
        l: list.as_slice(),
        u: list.as_slice(),
        lo: &[],
        hi: &[],
        slip: slip.as_slice(),
    };
    print_opening(rt, name, check_opening(&g, &a, &lists))?;
    Ok(())
}

fn open_sizes(rt: &HostRuntime) -> anyhow::Result<()> {
    open_zeros(rt, "16 ropes", 16, &[])?;
    open_zeros(rt, "17 ropes", 17, &[])?;
    open_zeros(rt, "4096 in G", 1, &[Record::new(0, 0, 4096)])?;
    open_zeros(rt, "4097 in G", 1, &[Record::new(0, 0, 4097)])
}

/// G = (1, 2; 2, 4), which no slip of zeros shows to be convex.
fn open_flat(rt: &HostRuntime, name: &str, slip: &[i64]) -> io::Result<()> {
    let records = [
        Record::new(0, 0, 1),
        Record::new(0, 1, 2),
        Record::new(1, 0, 2),
        Record::new(1, 1, 4),
    ];
    let g = Triplets::new(2, 2, &records);
    let a = Triplets::new(0, 7, &[]);
    let lists = Lists {
        c: &[0, 0],
        l: &[0, 0],
        u: &[0, 0],
        lo: &[],
        hi: &[],
        slip,
    };
    print_opening(rt, name, check_opening(&g, &a, &lists))
}

/// The terms of the two-rope job with other limits of its row.
fn two_rope_terms(lo: i64, hi: i64) -> anyhow::Result<Terms> {
    let terms = Terms::new(LISTS.c, LISTS.l, LISTS.u, &[lo], &[hi]);
    terms.ok_or_else(|| anyhow!("the two-rope job has other terms"))
}

fn print_floor(rt: &HostRuntime, card: &[u8], terms: &Terms, pair: Pair) -> io::Result<()> {
    let g = CardTable::curvature(card);
    let a = CardTable::rows(card);
    match floor(&g, &a, terms, pair) {
        Some(v) => println!(rt; "floor {v}"),
        None => println!(rt; "no pair"),
    }
}

fn print_refutes(rt: &HostRuntime, card: &[u8], terms: &Terms) -> io::Result<()> {
    let a = CardTable::rows(card);
    match refutes(&a, terms, &[1]) {
        Some(true) => println!(rt; "1 refutes"),
        Some(false) => println!(rt; "1 does not refute"),
        None => println!(rt; "no multipliers"),
    }
}

fn print_point(rt: &HostRuntime, card: &[u8], terms: &Terms, z: &[i64]) -> io::Result<()> {
    let g = CardTable::curvature(card);
    let a = CardTable::rows(card);
    match check_rows(&a, terms, z) {
        Ok(()) => print!(rt; "rows kept")?,
        Err(Unmet::At(i)) => print!(rt; "row {i} broken")?,
        Err(Unmet::NoPoint) => print!(rt; "no point")?,
    }
    match cost(&g, terms, z) {
        Some(q) => println!(rt; ", cost {q}"),
        None => println!(rt; ", no cost"),
    }
}

/// The two-rope job: what its points cost, what its pairs show, and what refutes it once its row is amended.
fn evaluations(rt: &HostRuntime, card: &[u8]) -> anyhow::Result<()> {
    let zeros = Pair {
        point: &[0, 0],
        multipliers: &[0],
    };
    let best = Pair {
        point: &[1, 2],
        multipliers: &[-512],
    };
    let terms = two_rope_terms(0, 3)?;
    print_floor(rt, card, &terms, zeros)?;
    print_point(rt, card, &terms, &[1, 2])?;
    print_point(rt, card, &terms, &[2, 2])?;
    print_floor(rt, card, &terms, best)?;
    print_floor(rt, card, &two_rope_terms(0, 2)?, best)?;
    print_refutes(rt, card, &two_rope_terms(21, 30)?)?;
    print_refutes(rt, card, &two_rope_terms(20, 30)?)?;
    Ok(())
}

/// What is said of so many bytes that are all 0.
fn zero_bytes(rt: &HostRuntime, len: usize) -> anyhow::Result<()> {
    let bytes = vec![in rt.alloc(); 0u8; len]?;
    match check_card(bytes.as_slice()) {
        Ok(_) => println!(rt; "a card")?,
        Err(fault) => println!(rt; "{fault}")?,
    }
    Ok(())
}

fn run(rt: &HostRuntime) -> anyhow::Result<()> {
    let contents = two_ropes()?;
    let mut out = vec![in rt.alloc(); 255u8; 3585]?;
    if let Err(fault) = contents.write(&mut out.as_mut_slice()[0..3583]) {
        println!(rt; "{fault}")?;
    }
    match contents.write(out.as_mut_slice()) {
        Ok(len) => println!(rt; "written {len}, then {}", out[3584])?,
        Err(fault) => println!(rt; "{fault}")?,
    }
    zero_bytes(rt, 700)?;
    zero_bytes(rt, 512)?;
    sizes(rt)?;
    blank_throughout(rt)?;
    layers(rt, out.as_slice())?;
    card_tables(rt, out.as_slice())?;
    open_sizes(rt)?;
    open_flat(rt, "slip 0", &[0, 0, 0, 0])?;
    open_flat(rt, "slip 1024 2048", &[1024, 2048, 0, 0])?;
    evaluations(rt, out.as_slice())?;
    Ok(())
}

fn main(rt: HostRuntime) -> anyhow::Result<()> {
    run(&rt)
}
