//! Reads a job card on standard input and says what it holds, or why it is refused.
#![tactic(auto)]

use anyhow::anyhow;
use card::{CardTable, Kind, MOST_BYTES, SoundCard, check_card};
use std::alloc::{AllocError, Global};
use std::io;
use std::io::Read;
use table::Table;

/// One byte more than the longest card, so that a longer one is seen to be too long.
const MOST: u64 = MOST_BYTES as u64 + 1;

/// Prints a section, if the card has it: its letter, its first block and how many numbers it has.
fn print_section(rt: &HostRuntime, card: &SoundCard, kind: Kind) -> io::Result<()> {
    let Some(section) = card.section(kind) else {
        return Ok(());
    };
    let letter = char::from(section.kind().letter());
    let count = card.sizes().count(kind);
    println!(rt; "{letter} {} {count}", section.first())
}

/// Prints the sizes of a card and each of its sections.
fn print_sections(rt: &HostRuntime, card: &SoundCard) -> io::Result<()> {
    let sizes = card.sizes();
    println!(rt; "ropes {} rows {}", sizes.ropes(), sizes.rows())?;
    print_section(rt, card, Kind::Head)?;
    for kind in Kind::AFTER_HEAD {
        print_section(rt, card, kind)?;
    }
    Ok(())
}

/// The lower bounds of the ropes, as the card's section B has them.
fn lower_bounds(heap: Global, card: &SoundCard) -> Result<Vec<i64>, AllocError> {
    let Some(section) = card.section(Kind::Bounds) else {
        return Ok(Vec::new(heap));
    };
    (0..card.sizes().ropes())
        .filter_map(|j| section.value(j).map(i64::from))
        .collect(heap)
}

/// Prints the sum of each row at the lower bounds, or `blank` where the card has no such sum.
fn print_sums(rt: &HostRuntime, card: &SoundCard, lower: &[i64]) -> io::Result<()> {
    let table = CardTable::rows(card.bytes());
    // A table is asked for its rows by number.
    for i in 0..table.height() {
        match table.product(i, lower) {
            Some(sum) => println!(rt; "row {i} sum {sum}")?,
            None => println!(rt; "row {i} blank")?,
        }
    }
    Ok(())
}

fn run(rt: &HostRuntime) -> anyhow::Result<()> {
    let mut bytes = Vec::new(rt.alloc());
    rt.stdin().take(MOST).read_to_end(&mut bytes)?;
    match check_card(bytes.as_slice()) {
        Ok(card) => {
            print_sections(rt, &card)?;
            let lower = lower_bounds(rt.alloc(), &card)?;
            print_sums(rt, &card, lower.as_slice())?;
            Ok(())
        }
        Err(fault) => {
            println!(rt; "{fault}")?;
            Err(anyhow!("the card is refused"))
        }
    }
}

fn main(rt: HostRuntime) -> anyhow::Result<()> {
    run(&rt)
}
