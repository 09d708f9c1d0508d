//! Reads a job card on standard input, solves its job and prints what the plan shows then, or why the card is refused.
#![tactic(auto)]

use anyhow::anyhow;
use card::MOST_BYTES;
use lines::ROOM;
use solver::tell_card;
use std::io::{Read, Write};

/// One byte more than the longest card, so that a longer one is seen to be too long.
const MOST: u64 = MOST_BYTES as u64 + 1;

fn run(rt: &HostRuntime) -> anyhow::Result<()> {
    let mut card = Vec::new(rt.alloc());
    rt.stdin().take(MOST).read_to_end(&mut card)?;
    let mut text = [0u8; ROOM];
    let told = tell_card(card.as_slice(), &mut text);
    rt.stdout().write_all(&text[..told.bytes])?;
    if told.solved {
        Ok(())
    } else {
        Err(anyhow!("the card is refused"))
    }
}

fn main(rt: HostRuntime) -> anyhow::Result<()> {
    run(&rt)
}
