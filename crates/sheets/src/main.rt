//! Runs whole jobs that an outside program made: solves the job of each card and prints what its plan shows then, or why the card is refused.
//!
//! A card of standard input is its length in two bytes, the low one first, and its bytes.
//! After the sheet of a job comes a line with the 64 bits of its smallest pivot.
//! A card whose job is solved is also read and written again, and a line tells where that does not give the same bytes.
#![tactic(auto)]

use card::MOST_BYTES;
use lines::ROOM;
use opening::Refusal;
use sheet::{read_card, write};
use solver::tell_card;
use std::io::{Read, Write};
use std::iter;
use wire::{bits, run, word};

/// The cards that one run may have.
const CARDS: usize = 10_000;

/// The next card, its length in two bytes before it.
fn card<'a>(input: &mut &'a [u8]) -> Option<&'a [u8]> {
    let len = word(input)?;
    Some(run(input, usize::from(len)))
}

/// Whether the job on a card, written again, is the same card.
fn is_same_again(card: &[u8]) -> Result<bool, Refusal> {
    let job = read_card(card)?;
    let mut again = [0u8; MOST_BYTES];
    let bytes = write(&job.g, &job.a, &job.lists(), &mut again)?;
    Ok(again.get(..bytes) == Some(card))
}

fn show_card(rt: &HostRuntime, card: &[u8]) -> anyhow::Result<()> {
    let mut text = [0u8; ROOM];
    let told = tell_card(card, &mut text);
    rt.stdout().write_all(&text[..told.bytes])?;
    if told.solved {
        let pivot = bits(told.smallest);
        println!(rt; "pivot {pivot}")?;
        if is_same_again(card) != Ok(true) {
            println!(rt; "written again, the card has other bytes")?;
        }
    }
    Ok(())
}

fn run_cards(rt: &HostRuntime) -> anyhow::Result<()> {
    let mut bytes = Vec::new(rt.alloc());
    rt.stdin().read_to_end(&mut bytes)?;
    let mut input = bytes.as_slice();
    for card in iter::from_fn(|| card(&mut input)).take(CARDS) {
        show_card(rt, card)?;
    }
    Ok(())
}

fn main(rt: HostRuntime) -> anyhow::Result<()> {
    run_cards(&rt)
}
